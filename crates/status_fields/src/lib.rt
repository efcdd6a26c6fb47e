// The fields of a STATUS packet, and the holes of its list one by one.
#![tactic(auto)]

ghost use Rattle.std.specs.Prelude.{◌≡◌, ◌≤◌, length};
ghost use Rattle.header.specs.FirstWord.{descriptor_octets, status_of};
ghost use Rattle.header.specs.Start.{word_of};
ghost use Rattle.packet_status.specs.Status.{success_refusal, status_refusal, hole_count, success_of, read_status, hole_refusal, indexed_hole, read_hole};
ghost use Rattle.refusals.specs.Faults.{refused};

use packet_status::{FailureStatus, Status, SuccessStatus};
use refusals::{Fault, Refusal};
use runs::Hole;

// The fields of a success STATUS that is not refused.
#[tactic(auto, using(packet_status::proofs::StatusLaws::success_there, packet_status::proofs::StatusLaws::progress_none, packet_status::proofs::StatusLaws::response_none, header::proofs::FirstWordLaws::octets_width, header::proofs::FirstWordLaws::octets_le, octets::proofs::NumberLaws::width_some), unfolding(packet_status::specs::Status::success_of))]
fn success_fields(p: &[u8]) -> SuccessStatus
    requires { (8 ≤ length p.now) × (success_refusal p.now ≡ 0) }
    ensures { result ≡ success_of p.now }
{
    let w = first_word::word(p);
    let h = first_word::split(w);
    let width = descriptors::descriptor_octets(w);
    let timestamp = descriptors::timestamp_octets(w);
    let at = 8 + timestamp;
    let holes = at + 2 * width;
    SuccessStatus {
        flags: h.flags,
        id: first_word::id(p),
        width,
        timestamp,
        progress: descriptors::descriptor(p, at, width),
        response: descriptors::descriptor(p, at + width, width),
        holes,
        count: (p.len() - holes) / (2 * width),
    }
}

// How many holes a success STATUS lists that is not refused.
#[tactic(auto, using(packet_status::proofs::StatusLaws::status_long, packet_status::proofs::StatusLaws::status_success, packet_status::proofs::StatusLaws::success_there, header::proofs::FirstWordLaws::octets_width, octets::proofs::NumberLaws::width_some))]
pub fn hole_count(p: &[u8]) -> usize
    requires { (status_refusal p.now ≡ 0) × (status_of (word_of p.now) ≡ 0) }
    ensures { result ≡ hole_count p.now }
{
    let w = first_word::word(p);
    let d = descriptors::descriptor_octets(w);
    let holes = 8 + descriptors::timestamp_octets(w) + 2 * d;
    (p.len() - holes) / (2 * d)
}

// Reads a packet that has to be STATUS. Of a failure STATUS nothing after the Id is read.
#[tactic(auto, using(packet_status::proofs::StatusLaws::status_long, packet_status::proofs::StatusLaws::status_success, packet_status::proofs::StatusLaws::failure_accepted, refusals::proofs::FaultLaws::fault_answers), unfolding(packet_status::specs::Status::read_status, packet_status::specs::Status::failure_of))]
pub fn read_status(p: &[u8]) -> Result<Status, Refusal>
    ensures { result ≡ read_status p.now }
{
    packet_status::status_refusal(p)?;
    let h = first_word::split(first_word::word(p));
    if h.status == 0 {
        return Ok(Status::Success(success_fields(p)));
    }
    Ok(Status::Failure(FailureStatus {
        flags: h.flags,
        id: first_word::id(p),
        status: h.status,
    }))
}

// The refusal of the hole with this index, counted from 0.
#[tactic(auto, using(packet_status::proofs::StatusLaws::status_long, packet_status::proofs::StatusLaws::status_success), unfolding(packet_status::specs::Status::hole_refusal))]
fn hole_refusal(p: &[u8], index: u64) -> Result<(), Fault>
    ensures { refused result ≡ hole_refusal index p.now }
{
    packet_status::status_refusal(p)?;
    let head = first_word::split(first_word::word(p));
    if head.status != 0 {
        return Err(Fault::Holes);
    }
    if hole_count(p) as u64 <= index {
        return Err(Fault::NoSuchHole);
    }
    Ok(())
}

// The hole with this index, of a success STATUS whose list has it and whose descriptors have D octets.
#[tactic(auto, using(packet_status::proofs::StatusLaws::hole_long, packet_status::proofs::StatusLaws::hole_within, packet_status::proofs::StatusLaws::hole_start, packet_status::proofs::StatusLaws::hole_end, header::proofs::FirstWordLaws::octets_width), unfolding(packet_status::specs::Status::indexed_hole))]
pub fn hole_of_width<const D: usize>(p: &[u8], index: usize) -> Hole
    requires { (hole_refusal index p.now ≡ 0) × (D ≡ descriptor_octets (word_of p.now)) }
    ensures { result ≡ indexed_hole index p.now }
{
    let holes = 8 + descriptors::timestamp_octets(first_word::word(p)) + 2 * D;
    hole_list::hole_at(p, holes + index * (2 * D), D)
}

// The same for every width. Each is a constant, for which the compiler makes one load of each number.
#[tactic(auto, using(packet_status::proofs::StatusLaws::hole_long, packet_status::proofs::StatusLaws::octets_wide))]
pub fn listed_hole(p: &[u8], index: usize) -> Hole
    requires { hole_refusal index p.now ≡ 0 }
    ensures { result ≡ indexed_hole index p.now }
{
    match descriptors::descriptor_octets(first_word::word(p)) {
        2 => hole_of_width::<2>(p, index),
        4 => hole_of_width::<4>(p, index),
        8 => hole_of_width::<8>(p, index),
        _ => hole_of_width::<16>(p, index),
    }
}

// One pair of the hole list of a success STATUS.
#[tactic(auto, using(refusals::proofs::FaultLaws::fault_answers), unfolding(packet_status::specs::Status::read_hole))]
pub fn read_hole(p: &[u8], index: u64) -> Result<Hole, Refusal>
    ensures { result ≡ read_hole index p.now }
{
    hole_refusal(p, index)?;
    Ok(listed_hole(p, index as usize))
}
