// METADATA once what it asks for was done, and closing.
#![tactic(auto)]

ghost use Rattle.std.specs.Prelude.{◌≡◌, ◌&&◌, not};
ghost use Rattle.engine_open.specs.Opened.{meet_state, opened_state, closing, gone_state};

use engine_slots::{Meeting, Sender};
use refusals::{Fault, Refusal};

// What closing answers: nothing yet, since the page is complete and not reported; or the file of what was closed.
#[derive(Clone, Copy)]
pub enum Closed {
    Wait,
    Gone(u64),
}

// What METADATA asked for was done; where files were to be made, they were made well or not. Answers what was to be done.
pub fn open(
    state: &mut [u8],
    time: u64,
    sender: Sender,
    packet: &[u8],
    well: bool,
) -> Result<Meeting, Refusal>
    ensures { (result ≡ meet_state state.old packet.now)
        × (state.new ≡ opened_state state.old time sender packet.now well) }
{
    let met = engine_meet::meet(state, packet)?;
    match met {
        Meeting::Wait => {}
        Meeting::Kept(_) => {
            let fields = packet_metadata::metadata_fields(packet);
            engine_change::keep(state, time, sender, fields.id);
        }
        Meeting::Ended(_) => {
            let fields = packet_metadata::metadata_fields(packet);
            engine_change::end(state, fields.id);
        }
        Meeting::Make(files) => {
            if well {
                engine_change::make(state, time, sender, packet, files);
            }
        }
    }
    Ok(met)
}

// A page that is busy waits for its report, unless it is spoilt.
fn must_wait(busy: bool, spoilt: bool) -> bool
    ensures { result ≡ busy && not spoilt }
{
    if spoilt {
        return false;
    }
    busy
}

// Closes an Id: by the operator, since its time is over, or since its page is spoilt.
pub fn close(state: &mut [u8], id: u64, spoilt: bool) -> Result<Closed, Refusal>
    ensures { (result ≡ closing state.old id spoilt) × (state.new ≡ gone_state state.old id spoilt) }
{
    if !engine_state::held(state) {
        return Err(Fault::NoTable.into());
    }
    let place = area_find::find_place(state, id);
    if !place.open {
        return Err(Fault::NotOpen.into());
    }
    let slot = engine_slots::slot_at(state, place.at);
    let busy = engine_meet::busy(state, id, slot.reported);
    if must_wait(busy, spoilt) {
        return Ok(Closed::Wait);
    }
    engine_change::end(state, id);
    Ok(Closed::Gone(slot.file))
}
