// DATA: what is to be done for it from an offset on, and recording what was done.
#![tactic(auto)]

ghost use Rattle.std.specs.Prelude.{◌≡◌, ◌<◌, ◌≤◌, Ok};
ghost use Rattle.packet_data.specs.Data.{read_data};
ghost use Rattle.transfer.specs.Record.{stop_of};
ghost use Rattle.area.specs.Places.{read_table, place_of};
ghost use Rattle.engine_slots.specs.declared.Look.TheVariants.{New, Known};
ghost use Rattle.engine_stretch.specs.Stretch.{reach_from};
ghost use Rattle.engine_model.specs.Snapshots.{file_of, received, same_sender};
ghost use Rattle.engine_model.specs.Stretches.{look_reach, look_owned};
ghost use Rattle.engine_state.specs.State.{snapshot_in};
ghost use Rattle.engine_piece.specs.Known.{Piece};
ghost use Rattle.engine_data.specs.Store.{look_state, stored_by, stored_state};
ghost use Rattle.engine_data.specs.Taken.{Taken, Looked};

use engine_slots::{Look, Sender, Stretch};
use packet_data::Data;
use refusals::{Fault, Refusal};

// ---- what is to be done

#[tactic(auto, unfolding(engine_model::specs::Snapshots::same_sender))]
fn same_sender(r: Sender, s: Sender) -> bool
    ensures { result ≡ same_sender r s }
{
    r.high == s.high && r.low == s.low && r.port == s.port
}

// The stretch of DATA from offset a on. Its Id is kept at a place, and its octets go to a file.
fn stretch_at(state: &[u8], place: usize, file: u64, d: Data, a: u64) -> Result<Look, Refusal>
    requires { Taken state.now d × (place ≡ place_of d.id (read_table state.now)) × (file ≡ file_of (snapshot_in state.now) d.id)
        × (d.offset ≤ a) × (a < stop_of d) }
    ensures { result ≡ look_reach (snapshot_in state.now) d a (reach_from (received (snapshot_in state.now) d.id) a (stop_of d)) }
{
    let rows = area_at::rows_at(state, place);
    let reach = engine_stretch::reach_from(state, rows, a, d.offset + d.length as u64);
    let x = Stretch {
        id: d.id,
        file,
        from: a,
        to: reach.stop,
        start: d.start as u64 + (a - d.offset),
    };
    if reach.received {
        return Ok(Look::Known(x));
    }
    Ok(Look::New(x))
}

// DATA that the table takes: of its owner alone, and from an offset on, or from its first.
fn look_owned(state: &[u8], sender: Sender, d: Data, from: u64) -> Result<Look, Refusal>
    requires { Taken state.now d }
    ensures { result ≡ look_owned (snapshot_in state.now) sender d from }
{
    let place = area_find::find_place(state, d.id).at;
    let slot = engine_slots::slot_at(state, place);
    let owner = slot.owner;
    if !same_sender(owner, sender) {
        return Ok(Look::Stranger);
    }
    let a = from.max(d.offset);
    if d.offset + d.length as u64 <= a {
        return Ok(Look::Over);
    }
    stretch_at(state, place, slot.file, d, a)
}

// What is to be done for DATA of a sender, from an offset of the file on. Nothing changes.
pub fn look(state: &[u8], sender: Sender, packet: &[u8], from: u64) -> Result<Look, Refusal>
    ensures { result ≡ look_state state.now sender packet.now from }
{
    if !engine_state::held(state) {
        return Err(Fault::NoTable.into());
    }
    area_record::try_record(state, packet)?;
    look_owned(state, sender, packet_data::data_fields(packet), from)
}

// ---- what was done

// A stretch that was not received, and ended well or not.
fn store_new(state: &mut [u8], time: u64, packet: &[u8], x: Stretch, well: bool)
    requires { Piece state.old packet.now x }
    ensures { state.new ≡ stored_by state.old time packet.now well (read_data packet.now) (Ok (New x)) }
{
    if !well {
        return;
    }
    engine_piece::store_piece(state, time, packet, x);
}

// One that was.
fn store_known(state: &mut [u8], time: u64, packet: &[u8], x: Stretch, well: bool)
    requires { Piece state.old packet.now x }
    ensures { state.new ≡ stored_by state.old time packet.now well (read_data packet.now) (Ok (Known x)) }
{
    if !well {
        engine_piece::end_transfer(state, x.id);
        return;
    }
    engine_piece::store_piece(state, time, packet, x);
}

// What was to be done ended well or not.
#[tactic(auto, using(crate::proofs::StoreLaws::over_same, crate::proofs::StoreLaws::stranger_same, crate::proofs::StoreLaws::refused_same))]
fn ended(state: &mut [u8], time: u64, packet: &[u8], l: Result<Look, Refusal>, well: bool)
    requires { Looked state.old packet.now l }
    ensures { state.new ≡ stored_by state.old time packet.now well (read_data packet.now) l }
{
    match l {
        Ok(Look::New(x)) => store_new(state, time, packet, x, well),
        Ok(Look::Known(x)) => store_known(state, time, packet, x, well),
        Ok(Look::Over) => {}
        Ok(Look::Stranger) => {}
        Err(_) => {}
    }
}

// It was done, and ended well or not: a stretch was written, or compared and is equal. Answers what was to be done.
pub fn store(
    state: &mut [u8],
    time: u64,
    sender: Sender,
    packet: &[u8],
    from: u64,
    well: bool,
) -> Result<Look, Refusal>
    ensures { (result ≡ look_state state.old sender packet.now from)
        × (state.new ≡ stored_state state.old time sender packet.now from well) }
{
    let l = look(state, sender, packet, from);
    ended(state, time, packet, l, well);
    l
}
