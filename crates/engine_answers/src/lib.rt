// The engine's answers as C gets them: structs of numbers, as include/saratoga_engine.h has them.
#![tactic(auto)]

ghost use Rattle.std.specs.Prelude.{◌≡◌};
ghost use Rattle.refusals.specs.Faults.{refused};
ghost use Rattle.engine_answers.specs.EngineAnswers.{stretch_answer, bare_look, look_answer, bare_meeting, meeting_answer, closed_answer, letter_answer, bare_next, page_next, next_answer, done_by, sync_answer};

use answer_table::DoneAnswer;
use engine_next::{Next, Page};
use engine_open::Closed;
use engine_slots::{Look, Meeting, Stretch};
use engine_tell::Letter;
use refusals::{Fault, Refusal};

// struct saratoga_look.
#[repr(C)]
#[derive(Clone, Copy)]
pub struct LookAnswer {
    pub number: u64,
    pub code: u64,
    pub kind: u64,
    pub id: u64,
    pub file: u64,
    pub from: u64,
    pub to: u64,
    pub start: u64,
}

// struct saratoga_meeting.
#[repr(C)]
#[derive(Clone, Copy)]
pub struct MeetingAnswer {
    pub number: u64,
    pub code: u64,
    pub kind: u64,
    pub id: u64,
    pub file: u64,
    pub ends: u64,
    pub old: u64,
}

// struct saratoga_closed.
#[repr(C)]
#[derive(Clone, Copy)]
pub struct ClosedAnswer {
    pub number: u64,
    pub code: u64,
    pub kind: u64,
    pub file: u64,
}

// struct saratoga_letter.
#[repr(C)]
#[derive(Clone, Copy)]
pub struct LetterAnswer {
    pub number: u64,
    pub code: u64,
    pub size: usize,
    pub high: u64,
    pub low: u64,
    pub port: u64,
}

// struct saratoga_next.
#[repr(C)]
#[derive(Clone, Copy)]
pub struct NextAnswer {
    pub number: u64,
    pub code: u64,
    pub kind: u64,
    pub id: u64,
    pub file: u64,
    pub length: u64,
}

// struct saratoga_sync.
#[repr(C)]
#[derive(Clone, Copy)]
pub struct SyncAnswer {
    pub number: u64,
    pub code: u64,
    pub sync: u64,
}

// ---- DATA

fn stretch_answer(kind: u64, x: Stretch) -> LookAnswer
    ensures { result ≡ stretch_answer kind x }
{
    LookAnswer {
        number: 0,
        code: 0,
        kind,
        id: x.id,
        file: x.file,
        from: x.from,
        to: x.to,
        start: x.start,
    }
}

fn bare_look(number: u64, code: u64, kind: u64) -> LookAnswer
    ensures { result ≡ bare_look number code kind }
{
    LookAnswer {
        number,
        code,
        kind,
        id: 0,
        file: 0,
        from: 0,
        to: 0,
        start: 0,
    }
}

#[tactic(auto, unfolding(crate::specs::EngineAnswers::look_answer))]
pub fn look_answer(a: Result<Look, Refusal>) -> LookAnswer
    ensures { result ≡ look_answer a }
{
    match a {
        Err(refusal) => bare_look(refusal.number, refusal.code, 0),
        Ok(Look::Stranger) => bare_look(0, 0, 1),
        Ok(Look::Over) => bare_look(0, 0, 2),
        Ok(Look::Known(x)) => stretch_answer(3, x),
        Ok(Look::New(x)) => stretch_answer(4, x),
    }
}

// ---- METADATA

fn bare_meeting(number: u64, code: u64, kind: u64, file: u64) -> MeetingAnswer
    ensures { result ≡ bare_meeting number code kind file }
{
    MeetingAnswer {
        number,
        code,
        kind,
        id: 0,
        file,
        ends: 0,
        old: 0,
    }
}

#[tactic(auto, unfolding(crate::specs::EngineAnswers::meeting_answer))]
pub fn meeting_answer(a: Result<Meeting, Refusal>) -> MeetingAnswer
    ensures { result ≡ meeting_answer a }
{
    match a {
        Err(refusal) => bare_meeting(refusal.number, refusal.code, 0, 0),
        Ok(Meeting::Wait) => bare_meeting(0, 0, 1, 0),
        Ok(Meeting::Kept(file)) => bare_meeting(0, 0, 2, file),
        Ok(Meeting::Ended(file)) => bare_meeting(0, 0, 3, file),
        Ok(Meeting::Make(x)) => MeetingAnswer {
            number: 0,
            code: 0,
            kind: 4,
            id: x.id,
            file: x.file,
            ends: x.ends,
            old: x.old,
        },
    }
}

// ---- closing

#[tactic(auto, unfolding(crate::specs::EngineAnswers::closed_answer))]
pub fn closed_answer(a: Result<Closed, Refusal>) -> ClosedAnswer
    ensures { result ≡ closed_answer a }
{
    match a {
        Err(refusal) => ClosedAnswer {
            number: refusal.number,
            code: refusal.code,
            kind: 0,
            file: 0,
        },
        Ok(Closed::Wait) => ClosedAnswer {
            number: 0,
            code: 0,
            kind: 1,
            file: 0,
        },
        Ok(Closed::Gone(file)) => ClosedAnswer {
            number: 0,
            code: 0,
            kind: 2,
            file,
        },
    }
}

// ---- STATUS

#[tactic(auto, unfolding(crate::specs::EngineAnswers::letter_answer))]
pub fn letter_answer(a: Result<Letter, Refusal>) -> LetterAnswer
    ensures { result ≡ letter_answer a }
{
    match a {
        Err(refusal) => LetterAnswer {
            number: refusal.number,
            code: refusal.code,
            size: 0,
            high: 0,
            low: 0,
            port: 0,
        },
        Ok(x) => LetterAnswer {
            number: 0,
            code: 0,
            size: x.size,
            high: x.to.high,
            low: x.to.low,
            port: x.to.port,
        },
    }
}

// ---- what is next

fn bare_next(number: u64, code: u64, kind: u64, id: u64) -> NextAnswer
    ensures { result ≡ bare_next number code kind id }
{
    NextAnswer {
        number,
        code,
        kind,
        id,
        file: 0,
        length: 0,
    }
}

fn page_next(kind: u64, x: Page) -> NextAnswer
    ensures { result ≡ page_next kind x }
{
    NextAnswer {
        number: 0,
        code: 0,
        kind,
        id: x.id,
        file: x.file,
        length: x.length,
    }
}

#[tactic(auto, unfolding(crate::specs::EngineAnswers::next_answer))]
pub fn next_answer(a: Result<Next, Refusal>) -> NextAnswer
    ensures { result ≡ next_answer a }
{
    match a {
        Err(refusal) => bare_next(refusal.number, refusal.code, 0, 0),
        Ok(Next::Nothing) => bare_next(0, 0, 1, 0),
        Ok(Next::Answer(id)) => bare_next(0, 0, 2, id),
        Ok(Next::Name(x)) => page_next(3, x),
        Ok(Next::Report(x)) => page_next(4, x),
        Ok(Next::Close(id)) => bare_next(0, 0, 5, id),
        Ok(Next::Sync) => bare_next(0, 0, 6, 0),
    }
}

// ---- a refusal, or none

// It takes any number, not only those that a fault has: docs/PROVED.md names its definition, so its callers may be others than ours.
pub fn done_by(number: u64) -> DoneAnswer
    ensures { result ≡ done_by number }
{
    let refusal = refusals::refuse(number);
    DoneAnswer {
        number,
        code: refusal.code,
    }
}

// The same, of what a call of ours answers.
pub fn done_answer(a: Result<(), Fault>) -> DoneAnswer
    ensures { result ≡ done_by (refused a) }
{
    match a {
        Ok(()) => done_by(0),
        Err(fault) => done_by(fault.number()),
    }
}

#[tactic(auto, unfolding(crate::specs::EngineAnswers::sync_answer))]
pub fn sync_answer(a: Result<Option<u64>, Refusal>) -> SyncAnswer
    ensures { result ≡ sync_answer a }
{
    match a {
        Err(refusal) => SyncAnswer {
            number: refusal.number,
            code: refusal.code,
            sync: 0,
        },
        Ok(begun) => SyncAnswer {
            number: 0,
            code: 0,
            sync: begun.unwrap_or(0),
        },
    }
}
