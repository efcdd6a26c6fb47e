// The offsets of a packet of DATA marked, and what is told of it.
#![tactic(auto)]

ghost use Rattle.std.specs.Prelude.{◌≡◌, ◌≤◌, ◌<◌, length};
ghost use Rattle.transfer.specs.Record.{stop_of, extended, runs_refusal};
ghost use Rattle.marks.specs.Marks.{mark_octets};
ghost use Rattle.marks.specs.MarkedRuns.{marked_runs};
ghost use Rattle.bitmap.specs.State.{longest};
ghost use Rattle.bitmap.specs.Judged.{RunsStand};
ghost use Rattle.bitmap_extend.specs.Record.{record_as};

use packet_data::Data;
use refusals::{Fault, Refusal};
use transfer::{Key, Reached, Receipt};

// Marks the offsets that a packet brings, where no refusal before 16 is given. Of the n runs in the rows, those from i up to j are
// absorbed: they start at `to` or below it, and don't stop below `from`. 16 is given before anything is marked.
pub fn extend(
    key: Key,
    marks: &mut [u8],
    rows: &[u8],
    n: usize,
    d: Data,
) -> Result<Receipt, Refusal>
    requires runs { RunsStand marks.old rows.now n }
    requires long { mark_octets ≤ length marks.old }
    requires some { 0 < d.length }
    requires low { stop_of d ≤ longest }
    ensures answer { result ≡ (record_as (runs_refusal (extended (marked_runs marks.old) d)) key marks.old d).answer }
    ensures marks { marks.new ≡ (record_as (runs_refusal (extended (marked_runs marks.old) d)) key marks.old d).marks }
{
    let from = d.offset;
    let to = from + d.length as u64;
    let at = bitmap_judge::rows_of(n);
    let j = run_cuts::cut_to(rows, at.starts, n, to);
    let i = run_cuts::cut_below(rows, at.stops, j, from);
    if marks::RUNS < i + 1 + (n - j) {
        return Err(Fault::TooManyRuns.into());
    }
    marks::set_marks(marks, from as usize, to as usize);
    let edge = run_rows::edge_of(rows, at).max(to);
    let complete = key.length <= marked_runs::first(marks, 0, false) as u64;
    let reached = Reached { edge, complete };
    let absorbed = (j - i) as u64;
    let adds = run_cuts::adds_of(rows, at, i, j, from, to);
    Ok(Receipt {
        reached,
        absorbed,
        adds,
    })
}
