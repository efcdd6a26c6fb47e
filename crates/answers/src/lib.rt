// What C gets of a written packet, of a hole and of a recording: answers that more than one of its functions gives.
// Every struct has fields of 64 bits alone. `number` is 0 where the call is accepted.
// written_answer, hole_answer and recorded_answer are no From: it would be the same body, and the crates above and docs/PROVED.md name these.
#![tactic(auto)]

ghost use Rattle.std.specs.Prelude.{◌≡◌};
ghost use Rattle.answers.specs.Answers.{hole_answer, written_answer, recorded_answer};

use refusals::Refusal;
use runs::Hole;
use transfer::Receipt;

// struct saratoga_hole.
#[repr(C)]
#[derive(Clone, Copy)]
pub struct HoleAnswer {
    pub number: u64,
    pub code: u64,
    pub start: u64,
    pub end: u64,
}

// struct saratoga_written.
#[repr(C)]
#[derive(Clone, Copy)]
pub struct WrittenAnswer {
    pub number: u64,
    pub code: u64,
    pub size: usize,
}

// struct saratoga_recorded.
#[repr(C)]
#[derive(Clone, Copy)]
pub struct RecordedAnswer {
    pub number: u64,
    pub code: u64,
    pub edge: u64,
    pub complete: u64,
    pub absorbed: u64,
    pub adds: u64,
}

// What C gets of a written packet.
pub fn written_answer(a: Result<usize, Refusal>) -> WrittenAnswer
    ensures { result ≡ written_answer a }
{
    match a {
        Ok(size) => WrittenAnswer {
            number: 0,
            code: 0,
            size,
        },
        Err(refusal) => WrittenAnswer {
            number: refusal.number,
            code: refusal.code,
            size: 0,
        },
    }
}

// What C gets of a hole.
pub fn hole_answer(a: Result<Hole, Refusal>) -> HoleAnswer
    ensures { result ≡ hole_answer a }
{
    match a {
        Ok(h) => HoleAnswer {
            number: 0,
            code: 0,
            start: h.start,
            end: h.end,
        },
        Err(r) => HoleAnswer {
            number: r.number,
            code: r.code,
            start: 0,
            end: 0,
        },
    }
}

// What C gets of a recording.
pub fn recorded_answer(a: Result<Receipt, Refusal>) -> RecordedAnswer
    ensures { result ≡ recorded_answer a }
{
    match a {
        Ok(x) => RecordedAnswer {
            number: 0,
            code: 0,
            edge: x.reached.edge,
            complete: refusals::bit_of(x.reached.complete),
            absorbed: x.absorbed,
            adds: x.adds,
        },
        Err(refused) => RecordedAnswer {
            number: refused.number,
            code: refused.code,
            edge: 0,
            complete: 0,
            absorbed: 0,
            adds: 0,
        },
    }
}
