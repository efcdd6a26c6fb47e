// DATA packets written.
#![tactic(auto)]

ghost use Rattle.std.specs.Prelude.{◌≡◌, ◌+◌, ◌<◌, ◌^◌, length};
ghost use Rattle.octets.specs.Put.{put};
ghost use Rattle.packet_data.specs.Data.{payload_at};
ghost use Rattle.packet_data.specs.WriteData.{data_excess, data_write_refusal, data_octets, DataFits, data_written, data_buffer};
ghost use Rattle.refusals.specs.Faults.{refused};

use refusals::{Fault, Refusal};

// Refusal 21 of the fields to be written. `timestamp` is a length.
#[tactic(auto, unfolding(packet_data::specs::WriteData::data_excess))]
fn data_excess(flags: u64, id: u64, timestamp: usize, offset: u64) -> Result<(), Fault>
    ensures { refused result ≡ data_excess flags id timestamp offset }
{
    if 0x1000000 <= flags
        || 0x100000000 <= id
        || descriptors::timestamp_octets(flags) < timestamp
        || !octets::fits(offset, descriptors::descriptor_octets(flags))
    {
        return Err(Fault::Field);
    }
    Ok(())
}

// The refusal of fields to be written. Timestamp, payload and room are lengths.
#[tactic(auto, using(packet_data::proofs::DataLaws::payload_at_le), unfolding(packet_data::specs::WriteData::data_write_refusal))]
fn data_write_refusal(
    flags: u64,
    id: u64,
    timestamp: usize,
    offset: u64,
    payload: usize,
    room: usize,
) -> Result<(), Fault>
    requires { payload < 2 ^ 63 }
    ensures { refused result ≡ data_write_refusal flags id timestamp offset payload room }
{
    data_excess(flags, id, timestamp, offset)?;
    packet_start::file_refusal(flags)?;
    if timestamp < descriptors::timestamp_octets(flags) {
        return Err(Fault::Short);
    }
    if payload == 0 {
        return Err(Fault::NoPayload);
    }
    refusals::room_refusal(packet_data::payload_at(flags) + payload, room)
}

// The octets of fields that are not refused, and their number.
#[tactic(auto, using(packet_data::proofs::WriteDataLaws::data_put))]
fn put_data(
    out: &mut [u8],
    flags: u64,
    id: u64,
    timestamp: &[u8],
    offset: u64,
    payload: &[u8],
) -> usize
    requires { DataFits flags (length timestamp.now) (length payload.now) (length out.old) }
    ensures { (result ≡ payload_at flags + length payload.now)
        × (out.new ≡ put 0 (data_octets flags id timestamp.now offset payload.now) out.old) }
{
    let start = packet_data::payload_at(flags);
    octets::write_number(out, 0, 4, first_word::join(3, flags));
    octets::write_number(out, 4, 4, id);
    octets::copy_into(out, 8, timestamp);
    octets::write_number(
        out,
        packet_data::offset_at(flags),
        descriptors::descriptor_octets(flags),
        offset,
    );
    octets::copy_into(out, start, payload);
    start + payload.len()
}

// Writes DATA into a lent buffer.
#[tactic(auto, using(refusals::proofs::FaultLaws::fault_answers, refusals::proofs::FaultLaws::fault_buffer, packet_data::proofs::WriteDataLaws::write_fits), unfolding(packet_data::specs::WriteData::data_written, packet_data::specs::WriteData::data_buffer))]
pub fn write_data(
    out: &mut [u8],
    flags: u64,
    id: u64,
    timestamp: &[u8],
    offset: u64,
    payload: &[u8],
) -> Result<usize, Refusal>
    ensures { (result ≡ data_written flags id timestamp.now offset payload.now out.old)
        × (out.new ≡ data_buffer flags id timestamp.now offset payload.now out.old) }
{
    data_write_refusal(flags, id, timestamp.len(), offset, payload.len(), out.len())?;
    Ok(put_data(out, flags, id, timestamp, offset, payload))
}
