// What C is answered of BEACON, METADATA, DATA and failure STATUS that are written.
#![tactic(auto)]

ghost use Rattle.std.specs.Prelude.{◌≡◌};
ghost use Rattle.beacon_writer.specs.WriteBeacon.{beacon_written, beacon_buffer};
ghost use Rattle.packet_data.specs.WriteData.{data_written, data_buffer};
ghost use Rattle.packet_metadata.specs.WriteMetadata.{metadata_written, metadata_buffer};
ghost use Rattle.failure_status.specs.WriteFailure.{failure_written, failure_buffer};
ghost use Rattle.answers.specs.Answers.{written_answer};

use answers::WrittenAnswer;
use metadata_writer::Fields;

pub fn write_beacon(flags: u64, free: u64, endpoint: &[u8], out: &mut [u8]) -> WrittenAnswer
    ensures { (result ≡ written_answer (beacon_written flags free endpoint.now out.old))
        × (out.new ≡ beacon_buffer flags free endpoint.now out.old) }
{
    answers::written_answer(beacon_writer::write_beacon(out, flags, free, endpoint))
}

pub fn write_metadata(
    flags: u64,
    id: u64,
    checksum: &[u8],
    properties: u64,
    size: u64,
    mtime: u64,
    ctime: u64,
    path: &[u8],
    out: &mut [u8],
) -> WrittenAnswer
    ensures { (result ≡ written_answer (metadata_written flags id checksum.now properties size mtime ctime path.now out.old))
        × (out.new ≡ metadata_buffer flags id checksum.now properties size mtime ctime path.now out.old) }
{
    let fields = Fields {
        flags,
        id,
        properties,
        size,
        mtime,
        ctime,
    };
    answers::written_answer(metadata_writer::write_metadata(out, fields, checksum, path))
}

pub fn write_data(
    flags: u64,
    id: u64,
    timestamp: &[u8],
    offset: u64,
    payload: &[u8],
    out: &mut [u8],
) -> WrittenAnswer
    ensures { (result ≡ written_answer (data_written flags id timestamp.now offset payload.now out.old))
        × (out.new ≡ data_buffer flags id timestamp.now offset payload.now out.old) }
{
    answers::written_answer(data_writer::write_data(out, flags, id, timestamp, offset, payload))
}

pub fn write_failure(id: u64, status: u64, out: &mut [u8]) -> WrittenAnswer
    ensures { (result ≡ written_answer (failure_written id status out.old))
        × (out.new ≡ failure_buffer id status out.old) }
{
    answers::written_answer(failure_status::write_failure(out, id, status))
}
