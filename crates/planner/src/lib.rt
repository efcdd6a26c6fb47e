// What to send again, piece by piece: how many pieces there are, and each of them in turn. A list of pieces is walked by what C calls
// (answer_plans); here is what there is to compute, on numbers and on a Piece by value.
#![tactic(auto)]

ghost use Rattle.std.specs.Prelude.{◌≡◌, ◌+◌, ◌-◌, ◌<◌, ◌≤◌, min, length};
ghost use Rattle.header.specs.FirstWord.{descriptor_octets};
ghost use Rattle.header.specs.Start.{word_of};
ghost use Rattle.packet_status.specs.Status.{hole_list};
ghost use Rattle.plan.specs.Pieces.{piece_count, plan_of};
ghost use Rattle.plan.specs.Planning.{resend_refusal, plan_refusal, planned_of, told_plan, cursor_at, advanced, piece_at, next_cursor, Readable};

use plan::{Cursor, Piece, Plan};
use refusals::Fault;

// How many pieces a hole takes.
#[tactic(auto, using(plan::proofs::PieceLaws::count_ceil))]
fn pieces_of(start: u64, end: u64, largest: u64) -> u64
    requires { (start < end) × (0 < largest) }
    ensures { result ≡ piece_count largest (record { start = start; end = end }) }
{
    (end - start).div_ceil(largest)
}

// How many pieces all holes take, of a STATUS with descriptors of D octets. There are fewer than octets, so the sum does not run
// over.
#[tactic(auto, using(plan::proofs::ResendLaws::hole_read, plan::proofs::ResendLaws::hole_ordered, plan::proofs::ResendLaws::largest_some, plan::proofs::ResendLaws::counted_next, plan::proofs::ResendLaws::counted_octets, plan::proofs::ResendLaws::next_above, plan::proofs::ResendLaws::counted_all))]
fn count_of_width<const D: usize>(status: &[u8], holes: usize, largest: u64) -> u64
    requires { (resend_refusal largest status.now ≡ 0) × (holes ≡ length (hole_list status.now)) × (D ≡ descriptor_octets (word_of status.now)) }
    ensures { result ≡ length (plan_of largest (hole_list status.now)) }
{
    let mut count = 0;
    for i in 0..holes {
        let h = status_fields::hole_of_width::<D>(status, i);
        count += pieces_of(h.start, h.end, largest);
    }
    count
}

// The same for every width. Each is a constant, for which the compiler makes one load of each number.
#[tactic(auto, using(plan::proofs::ResendLaws::resend_long, packet_status::proofs::StatusLaws::octets_wide))]
fn count_pieces(status: &[u8], holes: usize, largest: u64) -> u64
    requires { (resend_refusal largest status.now ≡ 0) × (holes ≡ length (hole_list status.now)) }
    ensures { result ≡ length (plan_of largest (hole_list status.now)) }
{
    match descriptors::descriptor_octets(first_word::word(status)) {
        2 => count_of_width::<2>(status, holes, largest),
        4 => count_of_width::<4>(status, holes, largest),
        8 => count_of_width::<8>(status, holes, largest),
        _ => count_of_width::<16>(status, holes, largest),
    }
}

// How many pieces the plan for a STATUS has.
#[tactic(auto, using(plan::proofs::JudgeLaws::planned_fault))]
pub fn count_plan(status: &[u8], largest: u64) -> Result<Plan, Fault>
    ensures { told_plan result ≡ planned_of (resend_refusal largest status.now) largest (hole_list status.now) }
{
    let holes = plan::judge(status, largest)?;
    Ok(Plan {
        count: count_pieces(status, holes, largest),
        holes,
    })
}

// The same for a list of `room` records.
#[tactic(auto, using(plan::proofs::JudgeLaws::within_fault, plan::proofs::JudgeLaws::within_room, plan::proofs::JudgeLaws::within_more), unfolding(plan::specs::Planning::plan_refusal))]
pub fn plan_within(status: &[u8], largest: u64, room: usize) -> Result<Plan, Fault>
    ensures { told_plan result ≡ planned_of (plan_refusal largest room status.now) largest (hole_list status.now) }
{
    let p = count_plan(status, largest)?;
    if (room as u64) < p.count {
        return Err(Fault::NoRoom);
    }
    Ok(p)
}

// The cursor at the low end of the hole with this index, of `count`.
#[tactic(auto, using(plan::proofs::ResendLaws::hole_indexed), unfolding(plan::specs::Planning::cursor_at))]
pub fn cursor_at(status: &[u8], count: usize, index: usize) -> Cursor
    requires { Readable status.now count }
    ensures { result ≡ cursor_at (hole_list status.now) count index }
{
    if count <= index {
        return Cursor {
            offset: 0,
            end: 0,
            next: index,
            count,
        };
    }
    let h = status_fields::listed_hole(status, index);
    Cursor {
        offset: h.start,
        end: h.end,
        next: index + 1,
        count,
    }
}

// The cursor `n` octets further on, in the hole or at its end.
#[tactic(auto, unfolding(plan::specs::Planning::advanced))]
pub fn advance(status: &[u8], c: Cursor, n: u64) -> Cursor
    requires { Readable status.now c.count × (c.offset + n ≤ c.end) }
    ensures { result ≡ advanced (hole_list status.now) n c }
{
    let offset = c.offset + n;
    if offset < c.end {
        return Cursor { offset, ..c };
    }
    cursor_at(status, c.count, c.next)
}

// How long the piece is that begins at an offset.
fn piece_length(offset: u64, end: u64, largest: u64) -> u64
    requires { offset ≤ end }
    ensures { result ≡ min largest (end - offset) }
{
    largest.min(end - offset)
}

// The piece that is next.
pub fn piece_at(c: Cursor, largest: u64) -> Piece
    requires { c.offset ≤ c.end }
    ensures { result ≡ piece_at largest c }
{
    Piece {
        offset: c.offset,
        length: piece_length(c.offset, c.end, largest),
    }
}

// The cursor after that piece.
pub fn next_cursor(status: &[u8], c: Cursor, largest: u64) -> Cursor
    requires { Readable status.now c.count × (c.offset ≤ c.end) }
    ensures { result ≡ next_cursor (hole_list status.now) largest c }
{
    advance(status, c, piece_length(c.offset, c.end, largest))
}
