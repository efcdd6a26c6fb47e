// METADATA: what is to be done for it. Nothing changes here.
#![tactic(auto)]

ghost use Rattle.std.specs.Prelude.{◌≡◌, true, ◌≤◌, length, eqb, not, ◌&&◌};
ghost use Rattle.header.specs.FirstWord.{bits};
ghost use Rattle.refusals.specs.Faults.{refused};
ghost use Rattle.packet_metadata.specs.Metadata.{metadata_refusal, read_metadata};
ghost use Rattle.table.specs.Open.{open_key};
ghost use Rattle.area.specs.Places.{read_table, KeptAt};
ghost use Rattle.area.specs.Judge.{judged};
ghost use Rattle.engine_model.specs.Snapshots.{is_complete, same_digest};
ghost use Rattle.engine_model.specs.Meetings.{room_for, meet_ended, meet_other, meet_read};
ghost use Rattle.engine_state.specs.Layout.{state_octets, next_field};
ghost use Rattle.engine_state.specs.State.{snapshot_in, number_in, held_state};
ghost use Rattle.engine_meet.specs.Cases.{new_meeting, same_meeting};
ghost use Rattle.engine_meet.specs.Meet.{meet_state};

use engine_slots::{Digest, Files, Meeting};
use refusals::{Fault, Refusal};
use transfer::Key;

// Bit 12 of a packet, by its flags: the sender has ended the transfer.
fn says_ended(flags: u64) -> bool
    ensures { result ≡ eqb (bits 24 flags 4 4) 1 }
{
    (flags >> 19) % 2 == 1
}

fn same_digest(d: Digest, e: Digest) -> bool
    ensures { result ≡ same_digest d e }
{
    if d.first != e.first {
        return false;
    }
    d.second == e.second
}

// A transfer is to be opened with these files, beside `count` others.
fn meet_new(unwanted: Result<(), Fault>, count: u64, files: Files) -> Result<Meeting, Refusal>
    ensures { result ≡ new_meeting (refused unwanted) count files }
{
    unwanted?;
    if (area::TRANSFERS as u64) <= count {
        return Err(Fault::TableFull.into());
    }
    if engine_state::LAST_NUMBER <= files.file {
        return Err(Fault::TableFull.into());
    }
    Ok(Meeting::Make(files))
}

// The METADATA of the open transfer comes again.
fn meet_same(held: Key, key: Key, file: u64) -> Result<Meeting, Refusal>
    ensures { result ≡ same_meeting held key file }
{
    if held.width != key.width {
        return Err(Fault::OtherFile.into());
    }
    if held.length != key.length {
        return Err(Fault::OtherFile.into());
    }
    Ok(Meeting::Kept(file))
}

// Whether the page of an Id is complete and was not reported yet, by what its slot says of that.
pub fn busy(state: &[u8], id: u64, reported: u64) -> bool
    requires { judged state.now ≡ true }
    ensures { result ≡ is_complete (snapshot_in state.now) id && not (eqb reported 1) }
{
    if engine_state::is_complete(state, id) {
        return reported != 1;
    }
    false
}

// METADATA that ends the transfer of its Id.
fn meet_ended(state: &[u8], id: u64) -> Result<Meeting, Refusal>
    requires { held_state state.now ≡ true }
    ensures { result ≡ meet_ended (snapshot_in state.now) id }
{
    let place = area_find::find_place(state, id);
    if !place.open {
        return Err(Fault::NotOpen.into());
    }
    let slot = engine_slots::slot_at(state, place.at);
    if busy(state, id, slot.reported) {
        return Ok(Meeting::Wait);
    }
    Ok(Meeting::Ended(slot.file))
}

// METADATA of an Id that is open at a place: its own, or other METADATA, for which that transfer ends.
fn meet_open(
    state: &[u8],
    at: usize,
    next: u64,
    unwanted: Result<(), Fault>,
    key: Key,
    digest: Digest,
) -> Result<Meeting, Refusal>
    requires { (held_state state.now ≡ true) × KeptAt key.id (read_table state.now) at }
    ensures { result ≡ meet_other (snapshot_in state.now) key.id digest next
        (open_key (room_for (snapshot_in state.now) key.id digest).table (refused unwanted) key).answer }
{
    let slot = engine_slots::slot_at(state, at);
    let held = slot.digest;
    if same_digest(held, digest) {
        return meet_same(area_at::key_at(state, at), key, slot.file);
    }
    if busy(state, key.id, slot.reported) {
        return Ok(Meeting::Wait);
    }
    let others = area_at::open_count(state) - 1;
    meet_new(
        unwanted,
        others,
        Files {
            id: key.id,
            file: next,
            ends: 1,
            old: slot.file,
        },
    )
}

// METADATA that was read.
fn meet_read(state: &[u8], packet: &[u8]) -> Result<Meeting, Refusal>
    requires { (held_state state.now ≡ true) × (metadata_refusal packet.now ≡ 0) }
    ensures { result ≡ meet_read (snapshot_in state.now) (number_in state.now next_field) packet.now (read_metadata packet.now) }
{
    let fields = packet_metadata::metadata_fields(packet);
    let key = transfer_key::key_of(fields);
    if says_ended(fields.flags) {
        return meet_ended(state, key.id);
    }
    let unwanted = transfer_key::new_refusal(fields.flags);
    let next = engine_state::number(state, engine_state::NEXT);
    let place = area_find::find_place(state, key.id);
    if place.open {
        return meet_open(
            state,
            place.at,
            next,
            unwanted,
            key,
            engine_digest::digest_of(packet),
        );
    }
    meet_new(
        unwanted,
        area_at::open_count(state),
        Files {
            id: key.id,
            file: next,
            ends: 0,
            old: 0,
        },
    )
}

// What is to be done for METADATA.
pub fn meet(state: &[u8], packet: &[u8]) -> Result<Meeting, Refusal>
    ensures { result ≡ meet_state state.now packet.now }
{
    if !engine_state::held(state) {
        return Err(Fault::NoTable.into());
    }
    packet_metadata::metadata_refusal(packet)?;
    meet_read(state, packet)
}
