// What to send again: the plan for a STATUS, and the check of a list of pieces, whoever made it.
#![tactic(auto)]

ghost use Rattle.std.specs.Prelude.{◌≡◌, length, IfOk};
ghost use Rattle.packet_status.specs.Status.{hole_list};
ghost use Rattle.plan.specs.Pieces.{plan_of};
ghost use Rattle.plan.specs.Planning.{resend_refusal, plan_refusal, planned_of, told_plan, records_after};
ghost use Rattle.plan_check.specs.Checking.{check_start, check_all, passed};
ghost use Rattle.refusals.specs.Faults.{refused};
ghost use Rattle.answer_plans.specs.PlanAnswers.{planned_answer, CheckAnswer};

use plan::{Piece, Plan};
use refusals::{Fault, Refusal};

// struct saratoga_planned.
#[repr(C)]
#[derive(Clone, Copy)]
pub struct PlannedAnswer {
    pub number: u64,
    pub code: u64,
    pub count: u64,
}

// struct saratoga_checked.
#[repr(C)]
#[derive(Clone, Copy)]
pub struct CheckedAnswer {
    pub number: u64,
    pub code: u64,
    pub passes: u64,
}

#[tactic(auto, unfolding(refusals::specs::Refusals::code_of))]
fn planned_answer(p: Result<Plan, Fault>) -> PlannedAnswer
    ensures { result ≡ planned_answer (told_plan p) }
{
    match p {
        Ok(p) => PlannedAnswer {
            number: 0,
            code: 0,
            count: p.count,
        },
        Err(fault) => {
            let refusal = Refusal::from(fault);
            PlannedAnswer {
                number: refusal.number,
                code: refusal.code,
                count: 0,
            }
        }
    }
}

pub fn plan_count(status: &[u8], largest: u64) -> PlannedAnswer
    ensures { result ≡ planned_answer (planned_of (resend_refusal largest status.now) largest (hole_list status.now)) }
{
    planned_answer(planner::count_plan(status, largest))
}

// Stores the plan's pieces, where there is room for all.
#[tactic(auto, using(crate::proofs::StoringLaws::all_stored))]
fn store_plan(status: &[u8], largest: u64, pieces: &mut [Piece]) -> Result<Plan, Fault>
    ensures told { told_plan result ≡ planned_of (plan_refusal largest (length pieces.old) status.now) largest (hole_list status.now) }
    ensures left { pieces.new ≡ records_after (plan_refusal largest (length pieces.old) status.now) (plan_of largest (hole_list status.now)) pieces.old }
{
    let p = planner::plan_within(status, largest, pieces.len())?;
    let mut c = planner::cursor_at(status, p.holes, 0);
    for i in 0..p.count as usize {
        pieces[i] = planner::piece_at(c, largest);
        c = planner::next_cursor(status, c, largest);
    }
    Ok(p)
}

pub fn plan(status: &[u8], largest: u64, pieces: &mut [Piece]) -> PlannedAnswer
    ensures { (result ≡ planned_answer (planned_of (plan_refusal largest (length pieces.old) status.now) largest (hole_list status.now)))
        × (pieces.new ≡ records_after (plan_refusal largest (length pieces.old) status.now) (plan_of largest (hole_list status.now)) pieces.old) }
{
    planned_answer(store_plan(status, largest, pieces))
}

// Whether a list of pieces passes, or why it is not checked.
fn pieces_pass(status: &[u8], largest: u64, pieces: &[Piece]) -> Result<bool, Fault>
    ensures number { refused result ≡ resend_refusal largest status.now }
    ensures passes { IfOk result (λ b. b ≡ passed (check_all (hole_list status.now) largest (check_start (resend_refusal largest status.now) (hole_list status.now)) pieces.now)) }
{
    let mut k = plan_check::check_start(status, largest)?;
    for p in pieces {
        k = plan_check::check_step(status, k, largest, *p);
    }
    Ok(plan_check::check_passed(k))
}

pub fn check_plan(status: &[u8], largest: u64, pieces: &[Piece]) -> CheckedAnswer
    ensures { CheckAnswer largest status.now pieces.now result }
{
    match pieces_pass(status, largest, pieces) {
        Ok(passes) => CheckedAnswer {
            number: 0,
            code: 0,
            passes: refusals::bit_of(passes),
        },
        Err(fault) => {
            let refusal = Refusal::from(fault);
            CheckedAnswer {
                number: refusal.number,
                code: refusal.code,
                passes: 0,
            }
        }
    }
}
