// BEACON packets written.
#![tactic(auto)]

ghost use Rattle.std.specs.Prelude.{◌≡◌, ◌+◌, ◌<◌, ◌^◌, length};
ghost use Rattle.octets.specs.Put.{put};
ghost use Rattle.packet_beacon.specs.Beacon.{endpoint_at};
ghost use Rattle.beacon_writer.specs.WriteBeacon.{beacon_excess, beacon_write_refusal, beacon_octets, BeaconFits, beacon_written, beacon_buffer};
ghost use Rattle.refusals.specs.Faults.{refused};

use refusals::{Fault, Refusal};

// Refusal 21 of the fields to be written.
#[tactic(auto, unfolding(crate::specs::WriteBeacon::beacon_excess))]
fn beacon_excess(flags: u64, free: u64) -> Result<(), Fault>
    ensures { refused result ≡ beacon_excess flags free }
{
    if 0x1000000 <= flags || !octets::fits(free, beacon_flags::free_octets(flags)) {
        return Err(Fault::Field);
    }
    Ok(())
}

// The refusal of fields to be written. Endpoint and room are lengths.
#[tactic(auto, using(beacon_flags::proofs::FlagLaws::free_le), unfolding(crate::specs::WriteBeacon::beacon_write_refusal))]
fn beacon_write_refusal(flags: u64, free: u64, endpoint: usize, room: usize) -> Result<(), Fault>
    requires { endpoint < 2 ^ 63 }
    ensures { refused result ≡ beacon_write_refusal flags free endpoint room }
{
    beacon_excess(flags, free)?;
    beacon_flags::flags_refusal(flags)?;
    refusals::room_refusal(packet_beacon::endpoint_at(flags) + endpoint, room)
}

// The octets of fields that are not refused, and their number.
#[tactic(auto, using(crate::proofs::WriteBeaconLaws::puts, octets::proofs::NumberLaws::length_digits), unfolding(crate::specs::WriteBeacon::beacon_octets))]
fn put_beacon(out: &mut [u8], flags: u64, free: u64, endpoint: &[u8]) -> usize
    requires { BeaconFits flags (length endpoint.now) (length out.old) }
    ensures { (result ≡ endpoint_at flags + length endpoint.now)
        × (out.new ≡ put 0 (beacon_octets flags free endpoint.now) out.old) }
{
    let start = packet_beacon::endpoint_at(flags);
    octets::write_number(out, 0, 4, first_word::join(0, flags));
    octets::write_number(out, 4, beacon_flags::free_octets(flags), free);
    octets::copy_into(out, start, endpoint);
    start + endpoint.len()
}

// Writes BEACON into a lent buffer.
#[tactic(auto, using(crate::proofs::WriteBeaconLaws::writable, refusals::proofs::FaultLaws::fault_answers, refusals::proofs::FaultLaws::fault_buffer), unfolding(crate::specs::WriteBeacon::beacon_written, crate::specs::WriteBeacon::beacon_buffer))]
pub fn write_beacon(
    out: &mut [u8],
    flags: u64,
    free: u64,
    endpoint: &[u8],
) -> Result<usize, Refusal>
    ensures { (result ≡ beacon_written flags free endpoint.now out.old)
        × (out.new ≡ beacon_buffer flags free endpoint.now out.old) }
{
    beacon_write_refusal(flags, free, endpoint.len(), out.len())?;
    Ok(put_beacon(out, flags, free, endpoint))
}
