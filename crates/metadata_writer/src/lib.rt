// METADATA packets written.
#![tactic(auto)]

ghost use Rattle.std.specs.Prelude.{◌≡◌, ◌+◌, ◌<◌, ◌^◌, length};
ghost use Rattle.octets.specs.Put.{put};
ghost use Rattle.packet_metadata.specs.WriteMetadata.{metadata_excess, checksum_refusal, metadata_size, metadata_write_refusal, metadata_octets, metadata_written, metadata_buffer, MetadataFits};
ghost use Rattle.refusals.specs.Faults.{refused};

use refusals::{Fault, Refusal};

// The numbers of a METADATA packet to be written; checksum and path stand beside them.
#[derive(Clone, Copy)]
pub struct Fields {
    pub flags: u64,
    pub id: u64,
    pub properties: u64,
    pub size: u64,
    pub mtime: u64,
    pub ctime: u64,
}

// Refusal 21 of the fields before the entry. `checksum` is a length.
#[tactic(auto, unfolding(packet_metadata::specs::WriteMetadata::metadata_excess))]
fn metadata_excess(flags: u64, id: u64, checksum: usize) -> Result<(), Fault>
    ensures { refused result ≡ metadata_excess flags id checksum }
{
    if 0x1000000 <= flags
        || 0x100000000 <= id
        || packet_metadata::checksum_octets(flags) < checksum
    {
        return Err(Fault::Field);
    }
    Ok(())
}

// Refusals 6, 7 of the flags and 1 of the checksum to be written. `checksum` is a length.
#[tactic(auto, unfolding(packet_metadata::specs::WriteMetadata::checksum_refusal))]
fn checksum_refusal(flags: u64, checksum: usize) -> Result<(), Fault>
    ensures { refused result ≡ checksum_refusal flags checksum }
{
    packet_start::file_refusal(flags)?;
    packet_metadata::pair_refusal(flags)?;
    if checksum < packet_metadata::checksum_octets(flags) {
        return Err(Fault::Short);
    }
    Ok(())
}

// The size of a packet, by the length of the path.
fn metadata_size(flags: u64, properties: u64, path: usize) -> usize
    requires { path < 2 ^ 63 }
    ensures { result ≡ metadata_size flags properties path }
{
    8 + packet_metadata::checksum_octets(flags)
        + (10 + entry_parts::size_octets(properties) + path + 1)
}

// The refusal of fields to be written into `room` octets.
#[tactic(auto, unfolding(packet_metadata::specs::WriteMetadata::metadata_write_refusal))]
fn metadata_write_refusal(
    fields: Fields,
    checksum: &[u8],
    path: &[u8],
    room: usize,
) -> Result<(), Fault>
    ensures { refused result ≡ metadata_write_refusal fields.flags fields.id checksum.now fields.properties fields.size fields.mtime fields.ctime path.now room }
{
    metadata_excess(fields.flags, fields.id, checksum.len())?;
    directory_entry::entry_excess(fields.properties, fields.size, fields.mtime, fields.ctime)?;
    checksum_refusal(fields.flags, checksum.len())?;
    directory_entry::entry_write_refusal(
        descriptors::descriptor_octets(fields.flags),
        fields.properties,
        fields.size,
        path,
    )?;
    refusals::room_refusal(
        metadata_size(fields.flags, fields.properties, path.len()),
        room,
    )
}

// The octets of fields that are not refused.
#[tactic(auto, using(packet_metadata::proofs::WriteLaws::metadata_put))]
fn put_metadata(out: &mut [u8], fields: Fields, checksum: &[u8], path: &[u8])
    requires { MetadataFits fields.flags (length checksum.now) fields.properties (length path.now) (length out.old) }
    ensures { out.new ≡ put 0 (metadata_octets fields.flags fields.id checksum.now fields.properties fields.size fields.mtime fields.ctime path.now) out.old }
{
    octets::write_number(out, 0, 4, first_word::join(2, fields.flags));
    octets::write_number(out, 4, 4, fields.id);
    octets::copy_into(out, 8, checksum);
    directory_entry::put_entry(
        out,
        8 + checksum.len(),
        fields.properties,
        fields.size,
        fields.mtime,
        fields.ctime,
        path,
    );
}

// Writes METADATA into a lent buffer.
#[tactic(auto, using(refusals::proofs::FaultLaws::fault_answers, refusals::proofs::FaultLaws::fault_buffer, packet_metadata::proofs::WriteLaws::write_fits), unfolding(packet_metadata::specs::WriteMetadata::metadata_written, packet_metadata::specs::WriteMetadata::metadata_buffer))]
pub fn write_metadata(
    out: &mut [u8],
    fields: Fields,
    checksum: &[u8],
    path: &[u8],
) -> Result<usize, Refusal>
    ensures { (result ≡ metadata_written fields.flags fields.id checksum.now fields.properties fields.size fields.mtime fields.ctime path.now out.old)
        × (out.new ≡ metadata_buffer fields.flags fields.id checksum.now fields.properties fields.size fields.mtime fields.ctime path.now out.old) }
{
    metadata_write_refusal(fields, checksum, path, out.len())?;
    put_metadata(out, fields, checksum, path);
    Ok(metadata_size(fields.flags, fields.properties, path.len()))
}
