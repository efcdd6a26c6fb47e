// The check of a list of pieces, one after the other.
// A list of pieces is walked by what C calls (crate saratoga); here is what there is to compute, on numbers and on a Piece by value.
#![tactic(auto)]

ghost use Rattle.std.specs.Prelude.{◌≡◌, IfOk};
ghost use Rattle.packet_status.specs.Status.{hole_list};
ghost use Rattle.plan.specs.Pieces.{piece};
ghost use Rattle.plan.specs.Planning.{resend_refusal, Readable};
ghost use Rattle.refusals.specs.Faults.{refused};
ghost use Rattle.plan_check.specs.Checking.{fits, check_start, check_step, passed};

use plan::{Cursor, Piece};
use refusals::Fault;

// A check under way: whether all pieces so far are fine, and how far they have come. One that is not fine keeps its cursor, and no Option
// stands for both: the definitions (Checking) walk on with it, and what a step asks, that the cursor's holes may be read, holds at each.
#[derive(Clone, Copy)]
pub struct Check {
    pub fine: bool,
    pub cursor: Cursor,
}

// Whether a piece begins at `at`, is neither empty nor longer than `largest`, and does not go past `end`.
#[tactic(auto, unfolding(crate::specs::Checking::fits))]
fn piece_fits(at: u64, end: u64, largest: u64, offset: u64, length: u64) -> bool
    ensures { result ≡ fits largest at end (piece offset length) }
{
    offset == at && 0 < length && length <= largest && at <= end && length <= end - at
}

// A check before the first piece, or why none is made.
#[tactic(auto, using(crate::proofs::CheckLaws::holes_readable))]
pub fn check_start(status: &[u8], largest: u64) -> Result<Check, Fault>
    ensures number { refused result ≡ resend_refusal largest status.now }
    ensures start { IfOk result (λ k. k ≡ check_start (resend_refusal largest status.now) (hole_list status.now)) }
{
    let holes = plan::judge(status, largest)?;
    Ok(Check {
        fine: true,
        cursor: planner::cursor_at(status, holes, 0),
    })
}

// A check after one more piece.
#[tactic(auto, using(crate::proofs::GoodPlanLaws::fits_ends), unfolding(crate::specs::Checking::check_step))]
pub fn check_step(status: &[u8], k: Check, largest: u64, p: Piece) -> Check
    requires { Readable status.now k.cursor.count }
    ensures { result ≡ check_step (hole_list status.now) largest k p }
{
    let c = k.cursor;
    if k.fine && piece_fits(c.offset, c.end, largest, p.offset, p.length) {
        Check {
            fine: true,
            cursor: planner::advance(status, c, p.length),
        }
    } else {
        Check { fine: false, ..k }
    }
}

// Whether all pieces were fine, and nothing is left.
#[tactic(auto, unfolding(crate::specs::Checking::passed))]
pub fn check_passed(k: Check) -> bool
    ensures { result ≡ passed k }
{
    k.fine && k.cursor.offset == k.cursor.end
}
