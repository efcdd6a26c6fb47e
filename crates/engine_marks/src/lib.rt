// What is kept of a page: that it has its name, that it was reported.
#![tactic(auto)]

ghost use Rattle.std.specs.Prelude.{◌≡◌, true, ◌&&◌, ◌≤◌, length};
ghost use Rattle.refusals.specs.Faults.{refused};
ghost use Rattle.engine_model.specs.Snapshots.{named_slot, reported_slot};
ghost use Rattle.engine_model.specs.Engine.{may_report};
ghost use Rattle.engine_state.specs.Layout.{state_octets};
ghost use Rattle.engine_state.specs.State.{engine_in, held_state, changed_state};
ghost use Rattle.engine_sync.specs.Syncs.{held_refusal};
ghost use Rattle.engine_open_slot.specs.OpenSlot.{OpenIn, same_now, slot_state};
ghost use Rattle.engine_marks.specs.Marks.{named_state, reported_state};

use engine_slots::Slot;
use refusals::Fault;

// Whether it was reported: it may have its name, and has it on disk.
fn may_report(state: &[u8], id: u64) -> bool
    requires { held_state state.now ≡ true }
    ensures { result ≡ may_report (engine_in state.now) id && same_now state.now id }
{
    if !engine_may::may_name(state, id) {
        return false;
    }
    engine_open_slot::slot_of(&state[engine_state::SYNCED..], id).named == 1
}

fn named_slot(s: Slot) -> Slot
    ensures { result ≡ named_slot s }
{
    let owner = s.owner;
    let digest = s.digest;
    Slot {
        file: s.file,
        owner,
        digest,
        named: 1,
        reported: s.reported,
        due: s.due,
        asked: s.asked,
        heard: s.heard,
        last: s.last,
    }
}

fn reported_slot(s: Slot) -> Slot
    ensures { result ≡ reported_slot s }
{
    let owner = s.owner;
    let digest = s.digest;
    Slot {
        file: s.file,
        owner,
        digest,
        named: s.named,
        reported: 1,
        due: s.due,
        asked: s.asked,
        heard: s.heard,
        last: s.last,
    }
}

// A slot of what is now changes, and that is to be saved.
fn put_marked(state: &mut [u8], id: u64, s: Slot)
    requires { (state_octets ≤ length state.old) × OpenIn state.old id }
    ensures { state.new ≡ changed_state (slot_state state.old id s) }
{
    engine_open_slot::put_slot(state, id, s);
    engine_state::set_number(state, engine_state::CHANGED, 1);
}

// The page of an Id got its name, well or not.
pub fn named(state: &mut [u8], id: u64, well: bool) -> Result<(), Fault>
    ensures { (refused result ≡ held_refusal state.old) × (state.new ≡ named_state state.old id well) }
{
    if !engine_state::held(state) {
        return Err(Fault::NoTable);
    }
    if !engine_may::may_name(state, id) {
        return Ok(());
    }
    if !well {
        return Ok(());
    }
    let slot = engine_open_slot::slot_of(state, id);
    put_marked(state, id, named_slot(slot));
    Ok(())
}

// The page of an Id was reported.
pub fn reported(state: &mut [u8], id: u64) -> Result<(), Fault>
    ensures { (refused result ≡ held_refusal state.old) × (state.new ≡ reported_state state.old id) }
{
    if !engine_state::held(state) {
        return Err(Fault::NoTable);
    }
    if !may_report(state, id) {
        return Ok(());
    }
    let slot = engine_open_slot::slot_of(state, id);
    put_marked(state, id, reported_slot(slot));
    Ok(())
}
