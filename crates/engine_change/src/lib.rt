// METADATA that was met: the state is changed by it.
#![tactic(auto)]

ghost use Rattle.std.specs.Prelude.{◌≡◌, true, false, suc, ◌≤◌, ◌<◌, length};
ghost use Rattle.words.specs.Words.{word_at};
ghost use Rattle.area.specs.Layout.{transfer_places};
ghost use Rattle.area.specs.Judge.{judged};
ghost use Rattle.engine_model.specs.Snapshots.{is_open, owned_by, heard_at, new_slot};
ghost use Rattle.engine_state.specs.Layout.{state_octets, number_field};
ghost use Rattle.engine_state.specs.State.{snapshot_in, number_in, held_state, changed_state, closed_state};
ghost use Rattle.engine_change.specs.Changed.{kept_state, put_in, made_state};
ghost use Rattle.engine_change.specs.Making.{Makes, emptied};

use engine_slots::{Digest, Files, Sender, Slot};

// The slot of a transfer whose METADATA came again, from any sender: that is the owner now, and sync `last` will cover the answer.
fn heard_slot(old: Slot, sender: Sender, last: u64, time: u64) -> Slot
    ensures { result ≡ heard_at time last true false (owned_by sender old) }
{
    let digest = old.digest;
    let due = engine_slots::first_due(old.due, last);
    Slot {
        file: old.file,
        owner: sender,
        digest,
        named: old.named,
        reported: old.reported,
        due,
        asked: old.asked,
        heard: time,
        last,
    }
}

// The slot of a transfer that METADATA opens.
fn new_slot(file: u64, sender: Sender, digest: Digest, due: u64, time: u64) -> Slot
    ensures { result ≡ new_slot file sender digest due time }
{
    Slot {
        file,
        owner: sender,
        digest,
        named: 0,
        reported: 0,
        due,
        asked: 0,
        heard: time,
        last: due,
    }
}

// An open Id is taken out of what is now.
fn take(state: &mut [u8], id: u64)
    requires { (held_state state.old ≡ true) × (is_open (snapshot_in state.old) id ≡ true) }
    ensures { state.new ≡ closed_state state.old id }
{
    let place = area_find::find_place(state, id);
    engine_state::take_out(state, place.at, id);
}

// The same, and that something is to be saved.
pub fn end(state: &mut [u8], id: u64)
    requires { (held_state state.old ≡ true) × (is_open (snapshot_in state.old) id ≡ true) }
    ensures { state.new ≡ changed_state (closed_state state.old id) }
{
    take(state, id);
    engine_state::set_number(state, engine_state::CHANGED, 1);
}

// METADATA of the open transfer: its sender is the owner, and an answer is due once the next sync came back.
pub fn keep(state: &mut [u8], time: u64, sender: Sender, id: u64)
    requires { (held_state state.old ≡ true) × (is_open (snapshot_in state.old) id ≡ true) }
    ensures { state.new ≡ kept_state state.old time sender (suc (number_in state.old number_field)) id }
{
    let place = area_find::find_place(state, id);
    let at = place.at;
    let old = engine_slots::slot_at(state, at);
    let due = engine_state::number(state, engine_state::NUMBER) + 1;
    let slot = heard_slot(old, sender, due, time);
    engine_slots::set_slot(state, at, slot);
    engine_state::set_number(state, engine_state::CHANGED, 1);
}

// Where the Id is open for other METADATA, that transfer is taken out.
fn make_room(state: &mut [u8], id: u64, ends: u64)
    requires { (held_state state.old ≡ true) × (ends ≡ 1 → is_open (snapshot_in state.old) id ≡ true) }
    ensures { state.new ≡ emptied state.old id ends }
{
    if ends == 1 {
        take(state, id);
    }
}

// A new transfer is put in, and its slot beside it. Sync `due` will cover its answer.
fn put_in(state: &mut [u8], time: u64, due: u64, sender: Sender, packet: &[u8], files: Files)
    requires { (state_octets ≤ length state.old) × (judged state.old ≡ true) × (word_at state.old 0 < transfer_places) }
    ensures { state.new ≡ put_in state.old time due sender packet.now files }
{
    let digest = engine_digest::digest_of(packet);
    let count = area_at::open_count(state) as usize;
    let place = area_find::find_place(state, files.id);
    let at = place.at;
    let _ = area_open::open(state, packet);
    let slot = new_slot(files.file, sender, digest, due, time);
    engine_slots::insert_slot(state, count, at, slot);
}

// The files were made: the transfer is opened, in the place of another one where that ends for it.
pub fn make(state: &mut [u8], time: u64, sender: Sender, packet: &[u8], files: Files)
    requires { Makes state.old packet.now files }
    ensures { state.new ≡ made_state state.old time sender packet.now files }
{
    let due = engine_state::number(state, engine_state::NUMBER) + 1;
    make_room(state, files.id, files.ends);
    put_in(state, time, due, sender, packet, files);
    engine_state::set_number(state, engine_state::NEXT, files.file + 1);
    engine_state::set_number(state, engine_state::CHANGED, 1);
}
