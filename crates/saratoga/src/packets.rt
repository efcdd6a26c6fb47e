// Packets: reading any of them, one hole of a STATUS, and writing BEACON, METADATA, DATA and failure STATUS.
ghost use Rattle.std.specs.Prelude.{◌≡◌};
ghost use Rattle.packet.specs.Read.{read_packet};
ghost use Rattle.beacon_writer.specs.WriteBeacon.{beacon_written, beacon_buffer};
ghost use Rattle.packet_data.specs.WriteData.{data_written, data_buffer};
ghost use Rattle.packet_metadata.specs.WriteMetadata.{metadata_written, metadata_buffer};
ghost use Rattle.packet_status.specs.Status.{read_hole};
ghost use Rattle.failure_status.specs.WriteFailure.{failure_written, failure_buffer};
ghost use Rattle.answers.specs.Answers.{hole_answer, written_answer};
ghost use Rattle.answer_packets.specs.PacketAnswers.{packet_answer};

use answer_packets::PacketAnswer;
use answers::{HoleAnswer, WrittenAnswer};
use packet::Packet;

// DATA comes most often and is answered first, without the enum. Each case has its own `return`, and stands here and not in one
// function below: where the cases met in one place, the compiler would bring 33 fields there over the stack.
#[tactic(auto, using(packet::proofs::CaseLaws::data_taken))]
#[unsafe(no_mangle)]
pub extern "C" fn saratoga_read(packet: &[u8]) -> PacketAnswer
    ensures { result ≡ packet_answer (read_packet packet.now) }
{
    if packet_data::data_refusal(packet).is_ok() {
        return answer_packets::data_packet(packet_data::data_fields(packet));
    }
    match packet::read_packet(packet) {
        Ok(Packet::Beacon(b)) => return answer_packets::beacon_packet(b),
        Ok(Packet::Metadata(m)) => return answer_packets::metadata_packet(m),
        Ok(Packet::Data(d)) => return answer_packets::data_packet(d),
        Ok(Packet::Success(s)) => return answer_packets::success_packet(s),
        Ok(Packet::Failure(f)) => return answer_packets::failure_packet(f),
        Err(r) => return answer_packets::refused_packet(r),
    }
}

#[unsafe(no_mangle)]
pub extern "C" fn saratoga_read_hole(packet: &[u8], index: u64) -> HoleAnswer
    ensures { result ≡ hole_answer (read_hole index packet.now) }
{
    answer_packets::read_hole(packet, index)
}

#[unsafe(no_mangle)]
pub extern "C" fn saratoga_write_beacon(
    flags: u64,
    free: u64,
    endpoint: &[u8],
    out: &mut [u8],
) -> WrittenAnswer
    ensures { (result ≡ written_answer (beacon_written flags free endpoint.now out.old))
        × (out.new ≡ beacon_buffer flags free endpoint.now out.old) }
{
    answer_writers::write_beacon(flags, free, endpoint, out)
}

#[unsafe(no_mangle)]
pub extern "C" fn saratoga_write_metadata(
    flags: u64,
    id: u64,
    checksum: &[u8],
    properties: u64,
    size: u64,
    mtime: u64,
    ctime: u64,
    path: &[u8],
    out: &mut [u8],
) -> WrittenAnswer
    ensures { (result ≡ written_answer (metadata_written flags id checksum.now properties size mtime ctime path.now out.old))
        × (out.new ≡ metadata_buffer flags id checksum.now properties size mtime ctime path.now out.old) }
{
    answer_writers::write_metadata(
        flags, id, checksum, properties, size, mtime, ctime, path, out,
    )
}

#[unsafe(no_mangle)]
pub extern "C" fn saratoga_write_data(
    flags: u64,
    id: u64,
    timestamp: &[u8],
    offset: u64,
    payload: &[u8],
    out: &mut [u8],
) -> WrittenAnswer
    ensures { (result ≡ written_answer (data_written flags id timestamp.now offset payload.now out.old))
        × (out.new ≡ data_buffer flags id timestamp.now offset payload.now out.old) }
{
    answer_writers::write_data(flags, id, timestamp, offset, payload, out)
}

#[unsafe(no_mangle)]
pub extern "C" fn saratoga_write_failure(id: u64, status: u64, out: &mut [u8]) -> WrittenAnswer
    ensures { (result ≡ written_answer (failure_written id status out.old))
        × (out.new ≡ failure_buffer id status out.old) }
{
    answer_writers::write_failure(id, status, out)
}
