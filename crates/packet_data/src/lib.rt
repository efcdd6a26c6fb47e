// DATA packets read, the payload handed back as a part of the packet.
#![tactic(auto)]

ghost use Rattle.std.specs.Prelude.{◌≡◌, ◌+◌, length};
ghost use Rattle.packet_data.specs.Data.{offset_at, payload_at, data_refusal, data_of, read_data, payload_of};
ghost use Rattle.refusals.specs.Faults.{refused};

use refusals::{Fault, Refusal};

// The fields of a DATA packet. `width` and `timestamp` count octets; the payload is `length` octets from `start` on.
#[derive(Clone, Copy)]
pub struct Data {
    pub flags: u64,
    pub id: u64,
    pub width: usize,
    pub timestamp: usize,
    pub wanted: u64,
    pub eod: u64,
    pub offset: u64,
    pub start: usize,
    pub length: usize,
}

// Where the offset stands, by the first word or the flags.
pub fn offset_at(w: u64) -> usize
    ensures { result ≡ offset_at w }
{
    8 + descriptors::timestamp_octets(w)
}

// Where the payload starts, by the first word or the flags.
pub fn payload_at(w: u64) -> usize
    ensures { result ≡ payload_at w }
{
    offset_at(w) + descriptors::descriptor_octets(w)
}

// The refusal of a packet that has to be DATA.
#[tactic(auto, using(header::proofs::StartLaws::type_word, header::proofs::FirstWordLaws::octets_width, header::proofs::FirstWordLaws::octets_le), unfolding(crate::specs::Data::data_refusal))]
pub fn data_refusal(p: &[u8]) -> Result<(), Fault>
    ensures { refused result ≡ data_refusal p.now }
{
    packet_start::type_refusal(p, 3)?;
    let w = first_word::word(p);
    packet_start::file_refusal(w)?;
    let start = payload_at(w);
    descriptors::descriptor_refusal(p, offset_at(w), descriptors::descriptor_octets(w))?;
    if p.len() == start {
        return Err(Fault::NoPayload); // nothing after the offset
    }
    Ok(())
}

// The fields of a packet that is not refused.
#[tactic(auto, using(header::proofs::FirstWordLaws::octets_width, crate::proofs::DataLaws::data_long, crate::proofs::DataLaws::data_more, crate::proofs::DataLaws::data_offset), unfolding(crate::specs::Data::data_of))]
pub fn data_fields(p: &[u8]) -> Data
    requires { data_refusal p.now ≡ 0 }
    ensures { result ≡ data_of p.now }
{
    let w = first_word::word(p);
    let h = first_word::split(w);
    let width = descriptors::descriptor_octets(w);
    let start = payload_at(w);
    Data {
        flags: h.flags,
        id: first_word::id(p),
        width,
        timestamp: descriptors::timestamp_octets(w),
        wanted: h.wanted,
        eod: h.eod,
        offset: descriptors::descriptor(p, offset_at(w), width),
        start,
        length: p.len() - start,
    }
}

// Reads a packet that has to be DATA.
#[tactic(auto, using(refusals::proofs::FaultLaws::fault_answers), unfolding(crate::specs::Data::read_data))]
pub fn read_data(p: &[u8]) -> Result<Data, Refusal>
    ensures { result ≡ read_data p.now }
{
    data_refusal(p)?;
    Ok(data_fields(p))
}

// The payload of DATA: the very part of the packet, empty where the packet is refused.
#[tactic(auto, using(refusals::proofs::FaultLaws::fault_some, crate::proofs::DataLaws::data_long, crate::proofs::DataLaws::data_more, crate::proofs::DataLaws::part_refused, crate::proofs::DataLaws::payload_rest), unfolding(crate::specs::Data::payload_of))]
pub fn payload(p: &[u8]) -> &[u8]
    ensures { result.now ≡ payload_of p.now }
{
    if data_refusal(p).is_err() {
        return &p[..0];
    }
    let start = payload_at(first_word::word(p));
    &p[start..]
}
