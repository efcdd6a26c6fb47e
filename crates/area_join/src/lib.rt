// The run that a packet's offsets make with those that stand at their place, and what is told of it, decided before anything is written.
#![tactic(auto)]

ghost use Rattle.std.specs.Prelude.{◌≡◌, ◌≤◌};
ghost use Rattle.run_rows.specs.Rows.{runs_in, RowsFit};
ghost use Rattle.area_locate.specs.Locate.{Found};
ghost use Rattle.area_join.specs.Ahead.{edge_with, progress_with};
ghost use Rattle.area_join.specs.Join.{Places, CutAt, Joins, told_by};

use area_locate::Target;
use refusals::Fault;
use run_rows::Rows;
use transfer::{Reached, Receipt};

// Of the `count` runs there, those from i up to j are to give way to one.
#[derive(Clone, Copy)]
pub struct Cuts {
    pub count: usize,
    pub i: usize,
    pub j: usize,
}

// That run, from `lo` to `hi`; the edge and completeness with it; and whether it brings something new.
#[derive(Clone, Copy)]
pub struct Joined {
    pub lo: u64,
    pub hi: u64,
    pub edge: u64,
    pub complete: bool,
    pub adds: u64,
}

// 16 where they would be too many; or those that the offsets overlap or touch.
pub fn cut(area: &[u8], t: Target) -> Result<Cuts, Fault>
    requires { Found area.now t }
    ensures { CutAt area.now t result }
{
    let rows = area_at::rows_at(area, t.place);
    let count = rows.count;
    let j = run_cuts::cut_to(area, rows.starts, count, t.to);
    let i = run_cuts::cut_below(area, rows.stops, j, t.from);
    if area::RUNS < i + 1 + (count - j) {
        return Err(Fault::TooManyRuns);
    }
    Ok(Cuts { count, i, j })
}

// The edge, where the runs up to j gave way to one that stops at `hi`.
fn edge_with(area: &[u8], rows: Rows, j: usize, hi: u64) -> u64
    requires { RowsFit area.now rows }
    ensures { result ≡ edge_with (runs_in area.now rows) j hi }
{
    if j < rows.count {
        return run_rows::edge_of(area, rows);
    }
    hi
}

// The lowest offset that is not received, where the runs from i on gave way to one from `lo` to `hi`.
fn progress_with(area: &[u8], rows: Rows, i: usize, lo: u64, hi: u64) -> u64
    requires { RowsFit area.now rows }
    ensures { result ≡ progress_with (runs_in area.now rows) i lo hi }
{
    if 0 < i {
        return run_rows::progress_of(area, rows);
    }
    if lo != 0 {
        return 0;
    }
    hi
}

// The run that they make with the offsets, and what is told of it.
pub fn join(area: &[u8], t: Target, c: Cuts) -> Joined
    requires { Found area.now t × Places area.now t c }
    ensures { Joins area.now t c result }
{
    let rows = area_at::rows_at(area, t.place);
    let lo = run_cuts::joined_start(area, rows, c.i, c.j, t.from);
    let hi = run_cuts::joined_stop(area, rows, c.i, c.j, t.to);
    let edge = edge_with(area, rows, c.j, hi);
    let progress = progress_with(area, rows, c.i, lo, hi);
    let complete = t.length <= progress;
    let adds = run_cuts::adds_of(area, rows, c.i, c.j, t.from, t.to);
    Joined {
        lo,
        hi,
        edge,
        complete,
        adds,
    }
}

// What is told: the runs between the two places are absorbed.
pub fn receipt(c: Cuts, s: Joined) -> Receipt
    requires { c.i ≤ c.j }
    ensures { result ≡ told_by c s }
{
    let reached = Reached {
        edge: s.edge,
        complete: s.complete,
    };
    let absorbed = (c.j - c.i) as u64;
    Receipt {
        reached,
        absorbed,
        adds: s.adds,
    }
}
