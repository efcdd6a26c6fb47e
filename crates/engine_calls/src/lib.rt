// The engine's calls as C makes them: numbers in, and answers of numbers. include/saratoga_engine.h says what each is for.
#![tactic(auto)]

ghost use Rattle.std.specs.Prelude.{◌≡◌};
ghost use Rattle.engine_data.specs.Store.{look_state, stored_state};
ghost use Rattle.engine_open.specs.Opened.{meet_state, opened_state, closing, gone_state};
ghost use Rattle.engine_sync.specs.Syncs.{start_refusal, started_state, beginning, begun_state, held_refusal, ended_state};
ghost use Rattle.engine_tell.specs.Tell.{telling, letter_buffer, told_state};
ghost use Rattle.engine_marks.specs.Marks.{named_state, reported_state};
ghost use Rattle.engine_next.specs.Next.{next_state};
ghost use Rattle.engine_answers.specs.EngineAnswers.{sender_of, is_yes, waits_of, done_by, sync_answer, look_answer, meeting_answer, closed_answer, letter_answer, next_answer};

use answer_table::DoneAnswer;
use engine_answers::{
    ClosedAnswer, LetterAnswer, LookAnswer, MeetingAnswer, NextAnswer, SyncAnswer,
};
use engine_due::Waits;
use engine_slots::Sender;

pub fn start(state: &mut [u8], saved: &[u8], sync: u64, file: u64) -> DoneAnswer
    ensures { (result ≡ done_by (start_refusal state.old saved.now sync))
        × (state.new ≡ started_state state.old saved.now sync file) }
{
    engine_answers::done_answer(engine_sync::start(state, saved, sync, file))
}

pub fn meet(state: &[u8], packet: &[u8]) -> MeetingAnswer
    ensures { result ≡ meeting_answer (meet_state state.now packet.now) }
{
    engine_answers::meeting_answer(engine_meet::meet(state, packet))
}

pub fn opened(
    state: &mut [u8],
    time: u64,
    high: u64,
    low: u64,
    port: u64,
    packet: &[u8],
    well: u64,
) -> MeetingAnswer
    ensures { (result ≡ meeting_answer (meet_state state.old packet.now))
        × (state.new ≡ opened_state state.old time (sender_of high low port) packet.now (is_yes well)) }
{
    let sender = Sender { high, low, port };
    engine_answers::meeting_answer(engine_open::open(state, time, sender, packet, well != 0))
}

pub fn look(state: &[u8], high: u64, low: u64, port: u64, packet: &[u8], from: u64) -> LookAnswer
    ensures { result ≡ look_answer (look_state state.now (sender_of high low port) packet.now from) }
{
    let sender = Sender { high, low, port };
    engine_answers::look_answer(engine_data::look(state, sender, packet, from))
}

pub fn stored(
    state: &mut [u8],
    time: u64,
    high: u64,
    low: u64,
    port: u64,
    packet: &[u8],
    from: u64,
    well: u64,
) -> LookAnswer
    ensures { (result ≡ look_answer (look_state state.old (sender_of high low port) packet.now from))
        × (state.new ≡ stored_state state.old time (sender_of high low port) packet.now from (is_yes well)) }
{
    let sender = Sender { high, low, port };
    engine_answers::look_answer(engine_data::store(state, time, sender, packet, from, well != 0))
}

pub fn next(
    state: &[u8],
    time: u64,
    interval: u64,
    linger: u64,
    forget: u64,
    from: u64,
) -> NextAnswer
    ensures { result ≡ next_answer (next_state state.now time (waits_of interval linger forget) from) }
{
    let waits = Waits {
        interval,
        linger,
        forget,
    };
    engine_answers::next_answer(engine_next::decide(state, time, waits, from))
}

pub fn tell(state: &mut [u8], id: u64, out: &mut [u8]) -> LetterAnswer
    ensures { (result ≡ letter_answer (telling state.old id out.old))
        × (state.new ≡ told_state state.old id out.old)
        × (out.new ≡ letter_buffer state.old id out.old) }
{
    engine_answers::letter_answer(engine_tell::tell(state, id, out))
}

pub fn named(state: &mut [u8], id: u64, well: u64) -> DoneAnswer
    ensures { (result ≡ done_by (held_refusal state.old)) × (state.new ≡ named_state state.old id (is_yes well)) }
{
    engine_answers::done_answer(engine_marks::named(state, id, well != 0))
}

pub fn reported(state: &mut [u8], id: u64) -> DoneAnswer
    ensures { (result ≡ done_by (held_refusal state.old)) × (state.new ≡ reported_state state.old id) }
{
    engine_answers::done_answer(engine_marks::reported(state, id))
}

pub fn close(state: &mut [u8], id: u64, spoilt: u64) -> ClosedAnswer
    ensures { (result ≡ closed_answer (closing state.old id (is_yes spoilt))) × (state.new ≡ gone_state state.old id (is_yes spoilt)) }
{
    engine_answers::closed_answer(engine_open::close(state, id, spoilt != 0))
}

pub fn sync(state: &mut [u8], time: u64) -> SyncAnswer
    ensures { (result ≡ sync_answer (beginning state.old)) × (state.new ≡ begun_state state.old time) }
{
    engine_answers::sync_answer(engine_sync::begin(state, time))
}

pub fn synced(state: &mut [u8], sync: u64, good: u64) -> DoneAnswer
    ensures { (result ≡ done_by (held_refusal state.old)) × (state.new ≡ ended_state state.old sync (is_yes good)) }
{
    engine_answers::done_answer(engine_sync::end(state, sync, good != 0))
}
