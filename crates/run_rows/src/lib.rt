// Runs kept in a buffer as two rows of words, read where they are.
#![tactic(auto)]

ghost use Rattle.std.specs.Prelude.{◌≡◌, ◌+◌, ◌<◌, length, get_or};
ghost use Rattle.runs.specs.Holes.{edge, hole, holes, progress, complete};
ghost use Rattle.runs.specs.Received.{received};
ghost use Rattle.run_rows.specs.Rows.{runs_in, RowsFit, RowsFine};

use runs::Hole;

// Where the runs of one transfer are kept: their starts are the `count` words from word `starts` on, their stops those from
// word `stops` on.
#[derive(Clone, Copy)]
pub struct Rows {
    pub starts: usize,
    pub stops: usize,
    pub count: usize,
}

// ---- what the runs say of their transfer

// One more than the highest received offset; 0 where there is none.
#[tactic(auto, using(crate::proofs::RowReads::edge_none, crate::proofs::RowReads::edge_some))]
pub fn edge_of(buf: &[u8], rows: Rows) -> u64
    requires { RowsFit buf.now rows }
    ensures { result ≡ edge (runs_in buf.now rows) }
{
    let runs = rows.count;
    if runs == 0 {
        return 0;
    }
    words::word(buf, rows.stops + (runs - 1))
}

// The lowest offset that is not received.
#[tactic(auto, using(crate::proofs::RowReads::progress_none, crate::proofs::RowReads::progress_low, crate::proofs::RowReads::progress_high))]
pub fn progress_of(buf: &[u8], rows: Rows) -> u64
    requires { RowsFit buf.now rows }
    ensures { result ≡ progress (runs_in buf.now rows) }
{
    if rows.count == 0 || words::word(buf, rows.starts) != 0 {
        return 0;
    }
    words::word(buf, rows.stops)
}

// Whether all offsets below `length` are received.
#[tactic(auto, using(crate::proofs::RowReads::complete_by))]
pub fn is_complete(buf: &[u8], rows: Rows, length: u64) -> bool
    requires { RowsFit buf.now rows }
    ensures { result ≡ complete length (runs_in buf.now rows) }
{
    length <= progress_of(buf, rows)
}

// How many offsets are received. No sum wraps: the runs before a run have no more of them than lie below its start.
#[tactic(auto, using(crate::proofs::RowReads::sum_next, crate::proofs::RowReads::sum_whole), unfolding(runs::specs::Received::received))]
pub fn received_of(buf: &[u8], rows: Rows) -> u64
    requires { RowsFine buf.now rows }
    ensures { result ≡ received (runs_in buf.now rows) }
{
    let mut sum = 0;
    for k in 0..rows.count {
        let start = words::word(buf, rows.starts + k);
        let stop = words::word(buf, rows.stops + k);
        sum += stop - start;
    }
    sum
}

// How many holes there are below the edge.
#[tactic(auto, using(crate::proofs::RowReads::holes_none, crate::proofs::RowReads::holes_low, crate::proofs::RowReads::holes_high))]
pub fn hole_count(buf: &[u8], rows: Rows) -> usize
    requires { RowsFine buf.now rows }
    ensures { result ≡ length (holes (runs_in buf.now rows)) }
{
    let n = rows.count;
    if n == 0 {
        return 0;
    }
    let first = words::word(buf, rows.starts);
    if first != 0 {
        return n;
    }
    n - 1
}

// Hole j, from the lowest.
#[tactic(auto, using(crate::proofs::RowReads::hole_low, crate::proofs::RowReads::hole_first, crate::proofs::RowReads::hole_next))]
pub fn hole_at(buf: &[u8], rows: Rows, j: usize) -> Hole
    requires { RowsFine buf.now rows × (j < length (holes (runs_in buf.now rows))) }
    ensures { result ≡ get_or (holes (runs_in buf.now rows)) j (hole 0 0) }
{
    let first = words::word(buf, rows.starts);
    if first == 0 {
        let start = words::word(buf, rows.stops + j);
        let end = words::word(buf, rows.starts + (j + 1));
        return Hole { start, end };
    }
    if j == 0 {
        return Hole {
            start: 0,
            end: first,
        };
    }
    let start = words::word(buf, rows.stops + (j - 1));
    let end = words::word(buf, rows.starts + j);
    Hole { start, end }
}
