// What to send again: the plan for a STATUS, and the check of a list of pieces, whoever made it.
ghost use Rattle.std.specs.Prelude.{◌≡◌, length};
ghost use Rattle.packet_status.specs.Status.{hole_list};
ghost use Rattle.plan.specs.Pieces.{plan_of};
ghost use Rattle.plan.specs.Planning.{resend_refusal, plan_refusal, planned_of, records_after};
ghost use Rattle.answer_plans.specs.PlanAnswers.{planned_answer, CheckAnswer};

use answer_plans::{CheckedAnswer, PlannedAnswer};
use plan::Piece;

#[unsafe(no_mangle)]
pub extern "C" fn saratoga_plan_count(status: &[u8], largest: u64) -> PlannedAnswer
    ensures { result ≡ planned_answer (planned_of (resend_refusal largest status.now) largest (hole_list status.now)) }
{
    answer_plans::plan_count(status, largest)
}

#[unsafe(no_mangle)]
pub extern "C" fn saratoga_plan(status: &[u8], largest: u64, pieces: &mut [Piece]) -> PlannedAnswer
    ensures { (result ≡ planned_answer (planned_of (plan_refusal largest (length pieces.old) status.now) largest (hole_list status.now)))
        × (pieces.new ≡ records_after (plan_refusal largest (length pieces.old) status.now) (plan_of largest (hole_list status.now)) pieces.old) }
{
    answer_plans::plan(status, largest, pieces)
}

#[unsafe(no_mangle)]
pub extern "C" fn saratoga_check_plan(
    status: &[u8],
    largest: u64,
    pieces: &[Piece],
) -> CheckedAnswer
    ensures { CheckAnswer largest status.now pieces.now result }
{
    answer_plans::check_plan(status, largest, pieces)
}
