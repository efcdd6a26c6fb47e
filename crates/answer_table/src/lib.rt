// The transfer table in a lent area: made fresh, opened, recorded, closed.
#![tactic(auto)]

ghost use Rattle.std.specs.Prelude.{◌≡◌};
ghost use Rattle.area.specs.Operations.{fresh_area, open_area, record_area, close_area};
ghost use Rattle.answers.specs.Answers.{recorded_answer};
ghost use Rattle.answer_table.specs.TableAnswers.{done_answer, opened_answer};

use answers::RecordedAnswer;
use refusals::Refusal;
use table::Opened;

// struct saratoga_done.
#[repr(C)]
#[derive(Clone, Copy)]
pub struct DoneAnswer {
    pub number: u64,
    pub code: u64,
}

// struct saratoga_opened.
#[repr(C)]
#[derive(Clone, Copy)]
pub struct OpenedAnswer {
    pub number: u64,
    pub code: u64,
    pub edge: u64,
    pub complete: u64,
    pub already_open: u64,
}

fn done_answer(a: Result<(), Refusal>) -> DoneAnswer
    ensures { result ≡ done_answer a }
{
    match a {
        Ok(()) => DoneAnswer { number: 0, code: 0 },
        Err(refusal) => DoneAnswer {
            number: refusal.number,
            code: refusal.code,
        },
    }
}

fn opened_answer(a: Result<Opened, Refusal>) -> OpenedAnswer
    ensures { result ≡ opened_answer a }
{
    match a {
        Ok(Opened::New(x)) => OpenedAnswer {
            number: 0,
            code: 0,
            edge: x.edge,
            complete: refusals::bit_of(x.complete),
            already_open: 0,
        },
        Ok(Opened::AlreadyOpen(x)) => OpenedAnswer {
            number: 0,
            code: 0,
            edge: x.edge,
            complete: refusals::bit_of(x.complete),
            already_open: 1,
        },
        Err(refused) => OpenedAnswer {
            number: refused.number,
            code: refused.code,
            edge: 0,
            complete: 0,
            already_open: 0,
        },
    }
}

pub fn fresh(area: &mut [u8]) -> DoneAnswer
    ensures { (result ≡ done_answer (fresh_area area.old).answer) × (area.new ≡ (fresh_area area.old).area) }
{
    done_answer(area_fresh::fresh(area))
}

pub fn open(area: &mut [u8], packet: &[u8]) -> OpenedAnswer
    ensures { (result ≡ opened_answer (open_area area.old packet.now).answer)
        × (area.new ≡ (open_area area.old packet.now).area) }
{
    opened_answer(area_open::open(area, packet))
}

pub fn record(area: &mut [u8], packet: &[u8]) -> RecordedAnswer
    ensures { (result ≡ recorded_answer (record_area area.old packet.now).answer)
        × (area.new ≡ (record_area area.old packet.now).area) }
{
    answers::recorded_answer(area_record::record(area, packet))
}

pub fn try_record(area: &[u8], packet: &[u8]) -> RecordedAnswer
    ensures { result ≡ recorded_answer (record_area area.now packet.now).answer }
{
    answers::recorded_answer(area_record::try_record(area, packet))
}

pub fn close(area: &mut [u8], id: u64) -> DoneAnswer
    ensures { (result ≡ done_answer (close_area area.old id).answer) × (area.new ≡ (close_area area.old id).area) }
{
    done_answer(area_close::close(area, id))
}
