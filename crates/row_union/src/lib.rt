// The union of the runs of two pairs of rows, in one buffer each, by a walk over both at once. It is left in two arrays.
#![tactic(auto)]

ghost use Rattle.std.specs.Prelude.{◌≡◌, ◌+◌, ◌<◌};
ghost use Rattle.run_rows.specs.Rows.{runs_in, RowsFit, RowsFine};
ghost use Rattle.run_union.specs.Union.{union};
ghost use Rattle.row_union.specs.Joined.{Ahead, RowsPast, Stepped, Put, Joined};

use run_rows::Rows;

// A run that was taken, how many runs of each pair of rows are passed after it, and where the next one of each starts.
#[derive(Clone, Copy)]
pub struct Next {
    pub start: u64,
    pub stop: u64,
    pub i: usize,
    pub j: usize,
    pub first: u64,
    pub second: u64,
}

// Above every start, since a run stops above its start. It is no Option, so that one comparison tells which run is next.
const NO_START: u64 = u64::MAX;

// Where run i of the rows starts; above every start where there is none.
fn start_ahead(buf: &[u8], rows: Rows, i: usize) -> u64
    requires { RowsFit buf.now rows }
    ensures { Ahead buf.now rows i result }
{
    if i < rows.count {
        return words::word(buf, rows.starts + i);
    }
    NO_START
}

// The run with the lowest start of those that are left: the runs from i on of the rows x, the next of which starts at `first`, and
// those from j on of the rows y, the next of which starts at `second`. No word is read twice.
#[tactic(auto, using(crate::proofs::StepLaws::first_there, crate::proofs::StepLaws::second_there))]
fn next_run(
    a: &[u8],
    x: Rows,
    i: usize,
    first: u64,
    b: &[u8],
    y: Rows,
    j: usize,
    second: u64,
) -> Next
    requires { RowsPast a.now x i × RowsPast b.now y j × (i + j < x.count + y.count) × Ahead a.now x i first × Ahead b.now y j second }
    ensures { Stepped a.now x i b.now y j result }
{
    if first <= second {
        return Next {
            start: first,
            stop: words::word(a, x.stops + i),
            i: i + 1,
            j,
            first: start_ahead(a, x, i + 1),
            second,
        };
    }
    Next {
        start: second,
        stop: words::word(b, y.stops + j),
        i,
        j: j + 1,
        first,
        second: start_ahead(b, y, j + 1),
    }
}

// A number kept at place n, where there is such a place.
fn keep(row: &mut [u64], n: usize, v: u64)
    ensures { Put row.old row.new n v }
{
    if n < row.len() {
        row[n] = v;
    }
}

// How many runs the union has; their starts and stops are left in the arrays, as many as there are places for. Each turn takes the
// next run of either pair of rows, so there are as many turns as runs in both.
pub fn join_rows(
    a: &[u8],
    x: Rows,
    b: &[u8],
    y: Rows,
    starts: &mut [u64],
    stops: &mut [u64],
) -> usize
    requires { RowsFine a.now x × RowsFine b.now y }
    ensures { Joined starts.new stops.new result (union (runs_in a.now x) (runs_in b.now y)) }
{
    let total = x.count + y.count;
    if total == 0 {
        return 0;
    }
    let mut next = next_run(a, x, 0, start_ahead(a, x, 0), b, y, 0, start_ahead(b, y, 0));
    let mut lo = next.start;
    let mut hi = next.stop;
    let mut n = 0;
    for passed in 1..total {
        next = next_run(a, x, next.i, next.first, b, y, next.j, next.second);
        if next.start <= hi {
            hi = hi.max(next.stop);
            continue;
        }
        keep(starts, n, lo);
        keep(stops, n, hi);
        n += 1;
        lo = next.start;
        hi = next.stop;
    }
    keep(starts, n, lo);
    keep(stops, n, hi);
    n + 1
}
