// Where a stretch goes among runs that are kept in two rows of words: what it overlaps or touches, and the run that they make.
#![tactic(auto)]

ghost use Rattle.std.specs.Prelude.{◌≡◌, ◌+◌, ◌*◌, ◌≤◌, ◌<◌, length};
ghost use Rattle.runs.specs.Splice.{low_of, high_of, adds_at};
ghost use Rattle.run_rows.specs.Rows.{runs_in, RowsFit, CutTo, CutBelow};

use run_rows::Rows;

// How many of the n rising words from word k on are at most b, by halves. It is no `partition_point`: the words are octets of a lent
// buffer, and no slice of numbers.
pub fn cut_to(buf: &[u8], k: usize, n: usize, b: u64) -> usize
    requires { (k + n) * 8 ≤ length buf.now }
    ensures { CutTo buf.now k n b result }
{
    let mut low: usize = 0;
    let mut top = n;
    while low < top {
        let mid = (low + top) / 2;
        if words::word(buf, k + mid) <= b {
            low = mid + 1;
        } else {
            top = mid;
        }
    }
    low
}

// How many of them are below b.
pub fn cut_below(buf: &[u8], k: usize, n: usize, b: u64) -> usize
    requires { (k + n) * 8 ≤ length buf.now }
    ensures { CutBelow buf.now k n b result }
{
    if b == 0 {
        return 0;
    }
    cut_to(buf, k, n, b - 1)
}

// Where the run starts that the runs i up to j, not including j, make with the offsets from `from` on.
#[tactic(auto, using(crate::proofs::JoinReads::start_alone, crate::proofs::JoinReads::start_joined))]
pub fn joined_start(buf: &[u8], rows: Rows, i: usize, j: usize, from: u64) -> u64
    requires { RowsFit buf.now rows × (j ≤ rows.count) }
    ensures { result ≡ low_of from (runs_in buf.now rows) i j }
{
    if j <= i {
        return from;
    }
    from.min(words::word(buf, rows.starts + i))
}

// Where it stops, where `to` is the first offset after the added ones.
#[tactic(auto, using(crate::proofs::JoinReads::stop_alone, crate::proofs::JoinReads::stop_joined))]
pub fn joined_stop(buf: &[u8], rows: Rows, i: usize, j: usize, to: u64) -> u64
    requires { RowsFit buf.now rows × (j ≤ rows.count) }
    ensures { result ≡ high_of to (runs_in buf.now rows) i j }
{
    if j <= i {
        return to;
    }
    to.max(words::word(buf, rows.stops + (j - 1)))
}

// Whether the added offsets, from `from` on and with `to` the first after them, bring one that was not received, 1 for yes; the runs
// that they overlap or touch are those from i up to j.
#[tactic(auto, using(crate::proofs::JoinReads::adds_apart, crate::proofs::JoinReads::adds_below, crate::proofs::JoinReads::adds_above, crate::proofs::JoinReads::adds_within))]
pub fn adds_of(buf: &[u8], rows: Rows, i: usize, j: usize, from: u64, to: u64) -> u64
    requires { RowsFit buf.now rows × (i ≤ j) × (j ≤ rows.count) }
    ensures { result ≡ adds_at from to (runs_in buf.now rows) i j }
{
    if j - i != 1
        || from < words::word(buf, rows.starts + i)
        || words::word(buf, rows.stops + i) < to
    {
        return 1;
    }
    0
}
