// What is told: a STATUS of what is synced.
#![tactic(auto)]

ghost use Rattle.std.specs.Prelude.{◌≡◌, true, cond, ltb};
ghost use Rattle.engine_model.specs.Snapshots.{answered_slot};
ghost use Rattle.engine_state.specs.State.{held_state};
ghost use Rattle.engine_tell.specs.Tell.{unasked, telling, letter_buffer, answered_state, told_state};

use engine_slots::{Sender, Slot};
use refusals::{Fault, Refusal};

// A STATUS: its octets in the lent buffer, and to whom it goes.
#[derive(Clone, Copy)]
pub struct Letter {
    pub size: usize,
    pub to: Sender,
}

// Whether nobody asked for the answer, as far as that is kept for the file that it is about.
fn is_unasked(state: &[u8], id: u64) -> bool
    requires { held_state state.now ≡ true }
    ensures { result ≡ unasked state.now id }
{
    if !engine_state::same_file(state, id) {
        return true;
    }
    !(engine_open_slot::slot_of(state, id).asked == 1)
}

// The STATUS of what is synced, and the owner there.
fn write_letter(state: &[u8], id: u64, out: &mut [u8]) -> Result<Letter, Refusal>
    requires { held_state state.now ≡ true }
    ensures { (result ≡ telling state.now id out.old)
        × (out.new ≡ letter_buffer state.now id out.old) }
{
    let unasked = is_unasked(state, id);
    let size = area_status::write_status(&state[engine_state::SYNCED..], id, 0, unasked, out)?;
    let slot = engine_open_slot::slot_of(&state[engine_state::SYNCED..], id);
    Ok(Letter {
        size,
        to: slot.owner,
    })
}

// A number where there is a question after the first, else 0.
fn if_later(s: Slot, v: u64) -> u64
    ensures { result ≡ cond (ltb s.due s.last) v 0 }
{
    if s.due < s.last {
        return v;
    }
    0
}

// The slot after an answer: a question after the first is due again.
fn answered_slot(s: Slot) -> Slot
    ensures { result ≡ answered_slot s }
{
    let owner = s.owner;
    let digest = s.digest;
    let due = if_later(s, s.last);
    let asked = if_later(s, s.asked);
    Slot {
        file: s.file,
        owner,
        digest,
        named: s.named,
        reported: s.reported,
        due,
        asked,
        heard: s.heard,
        last: s.last,
    }
}

// An answer went out for the file that it was about.
fn put_answered(state: &mut [u8], id: u64)
    requires { held_state state.old ≡ true }
    ensures { state.new ≡ answered_state state.old id }
{
    if !engine_state::same_file(state, id) {
        return;
    }
    let slot = engine_open_slot::slot_of(state, id);
    engine_open_slot::put_slot(state, id, answered_slot(slot));
}

// Writes the STATUS of an Id, as of the last good sync, into a lent buffer: it counts as sent.
pub fn tell(state: &mut [u8], id: u64, out: &mut [u8]) -> Result<Letter, Refusal>
    ensures { (result ≡ telling state.old id out.old)
        × (state.new ≡ told_state state.old id out.old)
        × (out.new ≡ letter_buffer state.old id out.old) }
{
    if !engine_state::held(state) {
        return Err(Fault::NoTable.into());
    }
    let letter = write_letter(state, id, out)?;
    put_answered(state, id);
    Ok(letter)
}
