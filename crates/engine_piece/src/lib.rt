// A stretch of DATA that was written, or compared and is equal, recorded, and its transfer heard; or one that differs, and its transfer ended unless its page
// is busy.
#![tactic(auto)]

ghost use Rattle.std.specs.Prelude.{◌≡◌, true, ◌||◌, ◌≤◌};
ghost use Rattle.packet_data.specs.Data.{data_of};
ghost use Rattle.engine_model.specs.Snapshots.{is_busy, heard_at};
ghost use Rattle.engine_model.specs.Stretches.{piece_of};
ghost use Rattle.engine_state.specs.State.{snapshot_in, held_state, changed_state, closed_state};
ghost use Rattle.engine_piece.specs.Piece.{heard_state, piece_state, differs_state};
ghost use Rattle.engine_piece.specs.Known.{OpenIn, Known, Piece};

use engine_slots::{Slot, Stretch};
use packet_data::Data;

// A stretch of DATA as DATA of its own. Whether the packet was the last was judged of the whole.
#[tactic(auto, unfolding(engine_model::specs::Stretches::piece_of))]
fn piece_of(d: Data, x: Stretch) -> Data
    requires { x.from ≤ x.to }
    ensures { result ≡ piece_of d x }
{
    Data {
        flags: d.flags,
        id: d.id,
        width: d.width,
        timestamp: d.timestamp,
        wanted: d.wanted,
        eod: 0,
        offset: x.from,
        start: x.start as usize,
        length: (x.to - x.from) as usize,
    }
}

// A slot heard at a time. Where an answer is due, sync n will cover this question, and a first one that waits stays what is due; where it
// was asked for, that is kept.
#[tactic(auto, unfolding(engine_model::specs::Snapshots::heard_at))]
fn heard_slot(s: Slot, time: u64, n: u64, answer: bool, asked: bool) -> Slot
    ensures { result ≡ heard_at time n answer asked s }
{
    let owner = s.owner;
    let digest = s.digest;
    let first = engine_slots::first_due(s.due, n);
    let due = if answer { first } else { s.due };
    let last = if answer { n } else { s.last };
    Slot {
        file: s.file,
        owner,
        digest,
        named: s.named,
        reported: s.reported,
        due,
        asked: if asked { 1 } else { s.asked },
        heard: time,
        last,
    }
}

// An answer is due where DATA asks for it, and where the page is complete.
fn answer_due(wanted: bool, complete: bool) -> bool
    ensures { result ≡ wanted || complete }
{
    wanted || complete
}

// The transfer of DATA d was heard at a time, n being the number of the next sync.
fn heard(state: &mut [u8], time: u64, n: u64, d: Data)
    requires { Known state.old d.id }
    ensures { state.new ≡ heard_state state.old time n d }
{
    let wanted = d.wanted == 1;
    let complete = engine_state::is_complete(state, d.id);
    let place = area_find::find_place(state, d.id).at;
    let slot = engine_slots::slot_at(state, place);
    let now = heard_slot(slot, time, n, answer_due(wanted, complete), wanted);
    engine_slots::set_slot(state, place, now);
    engine_state::set_number(state, engine_state::CHANGED, 1);
}

// A stretch was written, or compared and is equal: it is recorded, and its transfer was heard.
pub fn store_piece(state: &mut [u8], time: u64, packet: &[u8], x: Stretch)
    requires { Piece state.old packet.now x }
    ensures { state.new ≡ piece_state state.old time packet.now (data_of packet.now) x }
{
    let n = engine_state::number(state, engine_state::NUMBER) + 1;
    let d = packet_data::data_fields(packet);
    engine_record::record_fields(state, packet, piece_of(d, x));
    heard(state, time, n, d);
}

// Whether the page of an open Id is complete and was not reported yet.
fn is_busy(state: &[u8], id: u64) -> bool
    requires { Known state.now id }
    ensures { result ≡ is_busy (snapshot_in state.now) id }
{
    let place = area_find::find_place(state, id).at;
    let slot = engine_slots::slot_at(state, place);
    engine_state::is_complete(state, id) && slot.reported != 1
}

// An open Id is taken out of what is now, and that is to be saved.
fn take(state: &mut [u8], id: u64)
    requires { (held_state state.old ≡ true) × OpenIn state.old id }
    ensures { state.new ≡ changed_state (closed_state state.old id) }
{
    let place = area_find::find_place(state, id).at;
    engine_state::take_out(state, place, id);
    engine_state::set_number(state, engine_state::CHANGED, 1);
}

// A stretch differs from its file: its transfer ends, unless its page is busy.
pub fn end_transfer(state: &mut [u8], id: u64)
    requires { (held_state state.old ≡ true) × OpenIn state.old id }
    ensures { state.new ≡ differs_state state.old id }
{
    if is_busy(state, id) {
        return;
    }
    take(state, id);
}
