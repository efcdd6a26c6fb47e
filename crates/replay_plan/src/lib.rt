// The record `L`: the line of a plan. No list of pieces is held: it is put piece by piece, as crate planner makes it.
#![tactic(auto)]

ghost use Rattle.std.specs.Prelude.{◌≡◌, ◌+◌, ◌≤◌, length, Ok};
ghost use Rattle.packet_status.specs.Status.{hole_list};
ghost use Rattle.plan.specs.Pieces.{plan_of};
ghost use Rattle.plan.specs.Planning.{plan_refusal, told_plan, cursor_at};
ghost use Rattle.text.specs.Added.{Added};
ghost use Rattle.replay_plan.specs.PlanLines.{pieces_text, records_lent, plan_for, plan_line};
ghost use Rattle.replay_plan.specs.PlanRecords.{plan_lines};

use plan::{Cursor, Plan};
use replay_fields::{part, put_field, put_in_list};
use replay_lines::put_bad_length;

// The pieces of a plan, `count` of them; `first` is the cursor before the first one.
fn put_pieces(
    out: &mut [u8],
    at: usize,
    status: &[u8],
    largest: u64,
    count: u64,
    first: Cursor,
) -> usize
    requires { (at ≤ length out.old) × (count ≡ (plan_for largest status.now).count) × (first ≡ cursor_at (hole_list status.now) (plan_for largest status.now).holes 0) }
    ensures { Added out.old at (pieces_text (plan_of largest (hole_list status.now)) count) out.new result }
{
    let mut cursor = first;
    let mut next = at;
    for i in 0..count {
        let p = planner::piece_at(cursor, largest);
        next = put_in_list(out, next, i, b"+", p.offset, p.length);
        cursor = planner::next_cursor(status, cursor, largest);
    }
    next
}

// A plan p that is not refused.
fn put_planned(
    out: &mut [u8],
    at: usize,
    number: u64,
    status: &[u8],
    largest: u64,
    p: Plan,
) -> usize
    requires { (at ≤ length out.old) × (plan_refusal largest records_lent status.now ≡ 0) × (told_plan (Ok p) ≡ plan_for largest status.now) }
    ensures { Added out.old at (plan_line number largest status.now) out.new result }
{
    let first = planner::cursor_at(status, p.holes, 0);
    let a = text::put_decimal(out, at, number);
    let b = put_field(out, a, b" plan count=", p.count);
    let c = text::put_text(out, b, b" pieces=");
    let d = put_pieces(out, c, status, largest, p.count, first);
    text::push(out, d, 10)
}

// The plan for a STATUS, of pieces of at most `largest` octets, or why there is none.
fn put_plan(out: &mut [u8], at: usize, number: u64, status: &[u8], largest: u64) -> usize
    requires { at ≤ length out.old }
    ensures { Added out.old at (plan_line number largest status.now) out.new result }
{
    match planner::plan_within(status, largest, 4096) {
        Ok(p) => put_planned(out, at, number, status, largest, p),
        Err(fault) => replay_lines::put_refused(out, at, number, fault.into()),
    }
}

// A record `L`: the plan for a STATUS. The body is the largest payload, of 8 octets, and the packet.
pub fn plan_record(number: u64, body: &[u8], out: &mut [u8]) -> usize
    ensures { Added out.old 0 (plan_lines number body.now) out.new result }
{
    if body.len() < 8 {
        return put_bad_length(out, 0, number);
    }
    let largest = octets_read::read_eight(body, 0);
    put_plan(out, 0, number, part(body, 8, body.len()), largest)
}
