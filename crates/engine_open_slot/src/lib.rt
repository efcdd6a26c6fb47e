// The slot of an Id that is open: read, and put back.
#![tactic(auto)]

ghost use Rattle.std.specs.Prelude.{◌≡◌};
ghost use Rattle.engine_model.specs.Snapshots.{slot_of};
ghost use Rattle.engine_state.specs.State.{snapshot_in};
ghost use Rattle.engine_open_slot.specs.OpenSlot.{OpenIn, slot_state};

use engine_slots::Slot;

pub fn slot_of(snap: &[u8], id: u64) -> Slot
    requires { OpenIn snap.now id }
    ensures { result ≡ slot_of (snapshot_in snap.now) id }
{
    let place = area_find::find_place(snap, id);
    engine_slots::slot_at(snap, place.at)
}

pub fn put_slot(snap: &mut [u8], id: u64, s: Slot)
    requires { OpenIn snap.old id }
    ensures { snap.new ≡ slot_state snap.old id s }
{
    let place = area_find::find_place(snap, id);
    engine_slots::set_slot(snap, place.at, s);
}
