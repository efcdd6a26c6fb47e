// Reading a packet of any type.
#![tactic(auto)]

ghost use Rattle.std.specs.Prelude.{◌≡◌, Ok};
ghost use Rattle.packet.specs.Read.{of_status, read_packet};

use packet_beacon::Beacon;
use packet_data::Data;
use packet_metadata::Metadata;
use packet_status::{FailureStatus, Status, SuccessStatus};
use refusals::{Fault, Refusal};

// What a packet holds, by its type.
#[derive(Clone, Copy)]
pub enum Packet {
    Beacon(Beacon),
    Metadata(Metadata),
    Data(Data),
    Success(SuccessStatus),
    Failure(FailureStatus),
}

impl From<Status> for Packet {
    ghost from_gives = { λ status r. of_status (Ok status) ≡ Ok r };

    fn from(status: Status) -> Packet {
        match status {
            Status::Success(s) => Packet::Success(s),
            Status::Failure(f) => Packet::Failure(f),
        }
    }
}

// Reads a packet of any of the four types. BEACON comes most seldom, so that its type is tested last.
#[tactic(auto, using(refusals::proofs::FaultLaws::fault_answers, header::proofs::StartLaws::start_word), unfolding(crate::specs::Read::read_type, crate::specs::Read::read_packet))]
pub fn read_packet(p: &[u8]) -> Result<Packet, Refusal>
    ensures { result ≡ read_packet p.now }
{
    packet_start::start_refusal(p)?;
    let h = first_word::split(first_word::word(p));
    match h.ptype {
        2 => Ok(Packet::Metadata(packet_metadata::read_metadata(p)?)),
        3 => Ok(Packet::Data(packet_data::read_data(p)?)),
        4 => Ok(Packet::from(status_fields::read_status(p)?)),
        0 => Ok(Packet::Beacon(packet_beacon::read_beacon(p)?)),
        _ => Err(Fault::OtherType.into()),
    }
}
