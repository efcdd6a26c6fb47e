// Whether two rows of words hold the runs of a transfer.
#![tactic(auto)]

ghost use Rattle.std.specs.Prelude.{◌≡◌, ◌+◌, ◌<◌, length};
ghost use Rattle.run_rows.specs.Rows.{runs_in, RowsFit};
ghost use Rattle.run_judge.specs.Judge.{runs_test};

use run_rows::Rows;

// Whether the words of the rows are the runs of a transfer of this length. They rise, so the last stop alone is compared with it.
#[tactic(auto, using(crate::proofs::LoopLaws::runs_none, crate::proofs::LoopLaws::first_not, crate::proofs::LoopLaws::first_more, crate::proofs::LoopLaws::later_more, crate::proofs::LoopLaws::later_end))]
pub fn runs_ok(buf: &[u8], rows: Rows, size: u64) -> bool
    requires { RowsFit buf.now rows }
    ensures { result ≡ runs_test size (runs_in buf.now rows) }
{
    let s = rows.starts;
    let e = rows.stops;
    let n = rows.count;
    if n == 0 {
        return true;
    }
    let mut last = words::word(buf, e);
    if last <= words::word(buf, s) {
        return false;
    }
    for k in 1..n {
        let start = words::word(buf, s + k);
        if start <= last {
            return false;
        }
        last = words::word(buf, e + k);
        if last <= start {
            return false;
        }
    }
    last <= size
}
