// METADATA packets read.
#![tactic(auto)]

ghost use Rattle.std.specs.Prelude.{◌≡◌, ◌+◌, ◌<◌};
ghost use Rattle.packet_metadata.specs.Checksum.{pair_allowed, pair_refusal, checksum_octets};
ghost use Rattle.packet_metadata.specs.Metadata.{metadata_refusal, metadata_of, read_metadata};
ghost use Rattle.refusals.specs.Faults.{refused};

use directory_entry::Entry;
use refusals::{Fault, Refusal};

// The fields of a METADATA packet. `width` and `checksum` count octets; the checksum stands from place 8 on.
#[derive(Clone, Copy)]
pub struct Metadata {
    pub flags: u64,
    pub id: u64,
    pub width: usize,
    pub checksum: usize,
    pub entry: Entry,
}

// Whether a checksum of this type may have so many words.
#[tactic(auto, using(crate::proofs::ChecksumLaws::pair_other), unfolding(crate::specs::Checksum::pair_allowed))]
fn pair_allowed(sum: u64, words: u64) -> bool
    ensures { result ≡ pair_allowed sum words }
{
    match sum {
        0 => words == 0,
        1 => words == 1,
        2 => words == 4,
        3 => words == 5,
        _ => words != 0,
    }
}

// Refusal 7 of the first word, or the flags.
#[tactic(auto, unfolding(crate::specs::Checksum::pair_refusal))]
pub fn pair_refusal(w: u64) -> Result<(), Fault>
    ensures { refused result ≡ pair_refusal w }
{
    let h = first_word::split(w);
    if !pair_allowed(h.sum, h.words) {
        return Err(Fault::ChecksumPair);
    }
    Ok(())
}

// The octets of the checksum, by the first word or the flags.
pub fn checksum_octets(w: u64) -> usize
    ensures { result ≡ checksum_octets w }
{
    let h = first_word::split(w);
    4 * (h.words as usize)
}

// The refusal of a packet that has to be METADATA.
#[tactic(auto, using(header::proofs::StartLaws::type_word, directory_entry::proofs::EntryLaws::rest_part), unfolding(crate::specs::Metadata::metadata_refusal))]
pub fn metadata_refusal(p: &[u8]) -> Result<(), Fault>
    ensures { refused result ≡ metadata_refusal p.now }
{
    packet_start::type_refusal(p, 2)?;
    let w = first_word::word(p);
    packet_start::file_refusal(w)?;
    pair_refusal(w)?;
    let at = 8 + checksum_octets(w);
    if p.len() < at {
        return Err(Fault::Short);
    }
    directory_entry::entry_refusal(&p[at..], descriptors::descriptor_octets(w))
}

// The fields of a packet that is not refused.
#[tactic(auto, using(directory_entry::proofs::EntryLaws::rest_part, crate::proofs::MetadataLaws::metadata_long, crate::proofs::MetadataLaws::metadata_room, crate::proofs::MetadataLaws::metadata_entry), unfolding(crate::specs::Metadata::metadata_of))]
pub fn metadata_fields(p: &[u8]) -> Metadata
    requires { metadata_refusal p.now ≡ 0 }
    ensures { result ≡ metadata_of p.now }
{
    let w = first_word::word(p);
    let h = first_word::split(w);
    let width = descriptors::descriptor_octets(w);
    let checksum = checksum_octets(w);
    let at = 8 + checksum;
    let entry = directory_entry::entry_fields(&p[at..], width, at);
    Metadata {
        flags: h.flags,
        id: first_word::id(p),
        width,
        checksum,
        entry,
    }
}

// Reads a packet that has to be METADATA.
#[tactic(auto, using(refusals::proofs::FaultLaws::fault_answers), unfolding(crate::specs::Metadata::read_metadata))]
pub fn read_metadata(p: &[u8]) -> Result<Metadata, Refusal>
    ensures { result ≡ read_metadata p.now }
{
    metadata_refusal(p)?;
    Ok(metadata_fields(p))
}
