// STATUS packets: which are refused.
#![tactic(auto)]

ghost use Rattle.std.specs.Prelude.{◌≡◌, ◌≤◌, length};
ghost use Rattle.packet_status.specs.Status.{DescriptorsFine, list_refusal, success_refusal, status_refusal};
ghost use Rattle.refusals.specs.Faults.{refused};

use refusals::{Fault, Refusal};
use runs::Hole;

// The fields of a success STATUS. `width` and `timestamp` count octets; `count` holes stand from the place `holes` on.
#[derive(Clone, Copy)]
pub struct SuccessStatus {
    pub flags: u64,
    pub id: u64,
    pub width: usize,
    pub timestamp: usize,
    pub progress: u64,
    pub response: u64,
    pub holes: usize,
    pub count: usize,
}

// The fields of a failure STATUS; `status` is its code.
#[derive(Clone, Copy)]
pub struct FailureStatus {
    pub flags: u64,
    pub id: u64,
    pub status: u64,
}

// A STATUS: of a transfer that goes on or is complete, or of a failure.
#[derive(Clone, Copy)]
pub enum Status {
    Success(SuccessStatus),
    Failure(FailureStatus),
}

// Refusal 11 of the hole list of a success STATUS, none of whose descriptors is refused.
#[tactic(auto, using(crate::proofs::StatusLaws::fields_there, crate::proofs::StatusLaws::pairs_none, crate::proofs::StatusLaws::whole_within, header::proofs::FirstWordLaws::octets_width, octets::proofs::NumberLaws::width_some, hole_list::proofs::HoleListLaws::length_holes), unfolding(crate::specs::Status::list_refusal, crate::specs::Status::hole_list, hole_list::specs::HoleList::list_well))]
fn list_refusal(p: &[u8]) -> Result<(), Fault>
    requires { DescriptorsFine p.now }
    ensures { refused result ≡ list_refusal p.now }
{
    let w = first_word::word(p);
    let h = first_word::split(w);
    let d = descriptors::descriptor_octets(w);
    let at = 8 + descriptors::timestamp_octets(w);
    let holes = at + 2 * d;
    let rest = p.len() - holes;
    if rest % (2 * d) != 0 {
        return Err(Fault::Holes);
    }
    let count = rest / (2 * d);
    let partial = h.partial == 1;
    // bit 15, which in DATA says that a STATUS is wanted
    let unasked = h.wanted == 1;
    let progress = descriptors::descriptor(p, at, d);
    let top = descriptors::descriptor(p, at + d, d);
    if holes_judged::points_to_last(partial, unasked, count, progress, top)
        || holes_judged::holes_well(p, holes, d, count, partial, progress, top)
    {
        Ok(())
    } else {
        Err(Fault::Holes)
    }
}

// Refusals 1, 5 and 11 of a success STATUS.
#[tactic(auto, using(header::proofs::FirstWordLaws::octets_width, header::proofs::DescriptorLaws::descriptor_there, header::proofs::FirstWordLaws::octets_le, octets::proofs::NumberLaws::width_some, crate::proofs::StatusLaws::whole_within), unfolding(crate::specs::Status::success_refusal))]
fn success_refusal(p: &[u8]) -> Result<(), Fault>
    requires { 8 ≤ length p.now }
    ensures { refused result ≡ success_refusal p.now }
{
    let w = first_word::word(p);
    let d = descriptors::descriptor_octets(w);
    let at = 8 + descriptors::timestamp_octets(w);
    descriptors::descriptor_refusal(p, at, d)?;
    descriptors::descriptor_refusal(p, at + d, d)?;
    let holes = at + 2 * d;
    let rest = p.len() - holes;
    hole_list::descriptors_refusal(p, holes, d, rest / d)?;
    list_refusal(p)
}

// The refusal of a packet that has to be STATUS.
#[tactic(auto, using(header::proofs::StartLaws::type_long), unfolding(crate::specs::Status::status_refusal))]
pub fn status_refusal(p: &[u8]) -> Result<(), Fault>
    ensures { refused result ≡ status_refusal p.now }
{
    packet_start::type_refusal(p, 4)?;
    let h = first_word::split(first_word::word(p));
    if h.status != 0 {
        return Ok(());
    }
    success_refusal(p)
}
