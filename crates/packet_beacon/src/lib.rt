// BEACON packets read: who is on the air, what it can and will do, and how much room it has.
#![tactic(auto)]

ghost use Rattle.std.specs.Prelude.{◌≡◌, ◌+◌, ◌≤◌, length};
ghost use Rattle.beacon_flags.specs.Flags.{free_octets};
ghost use Rattle.header.specs.Start.{word_of};
ghost use Rattle.header.specs.Descriptor.{descriptor_refusal};
ghost use Rattle.packet_beacon.specs.Beacon.{endpoint_at, free_space, beacon_refusal, beacon_of, read_beacon};
ghost use Rattle.refusals.specs.Faults.{refused};

use beacon_flags::Willingness;
use refusals::{Fault, Refusal};

// The fields of a BEACON packet. `largest` counts the octets of the largest descriptor, and `width` those of the free space, 0
// where there is none; the endpoint is `length` octets from `start` on.
#[derive(Clone, Copy)]
pub struct Beacon {
    pub flags: u64,
    pub largest: usize,
    pub bundles: u64,
    pub streams: u64,
    pub send: Willingness,
    pub receive: Willingness,
    pub width: usize,
    pub free: u64,
    pub start: usize,
    pub length: usize,
}

// Where the endpoint starts, by the first word or the flags.
pub fn endpoint_at(w: u64) -> usize
    ensures { result ≡ endpoint_at w }
{
    4 + beacon_flags::free_octets(w)
}

// Refusals 1 and 5 of the free space, and where there is no free space.
#[tactic(auto, using(beacon_flags::proofs::FlagLaws::free_width, beacon_flags::proofs::FlagLaws::free_none, beacon_flags::proofs::FlagLaws::free_le))]
fn free_refusal(p: &[u8]) -> Result<(), Fault>
    requires { 4 ≤ length p.now }
    ensures { refused result ≡ descriptor_refusal (free_octets (word_of p.now)) 4 p.now }
{
    let width = beacon_flags::free_octets(first_word::word(p));
    if width == 0 {
        return Ok(());
    }
    descriptors::descriptor_refusal(p, 4, width)
}

// The refusal of a packet that has to be BEACON.
#[tactic(auto, using(header::proofs::StartLaws::type_fine), unfolding(crate::specs::Beacon::beacon_refusal))]
pub fn beacon_refusal(p: &[u8]) -> Result<(), Fault>
    ensures { refused result ≡ beacon_refusal p.now }
{
    packet_start::type_refusal(p, 0)?;
    beacon_flags::flags_refusal(first_word::word(p))?;
    free_refusal(p)
}

// The free space of a packet that is not refused, 0 where it has none.
#[tactic(auto, using(beacon_flags::proofs::FlagLaws::free_width, crate::proofs::BeaconLaws::beacon_fine))]
fn free_space(p: &[u8]) -> u64
    requires { beacon_refusal p.now ≡ 0 }
    ensures { result ≡ free_space p.now }
{
    let width = beacon_flags::free_octets(first_word::word(p));
    if width == 0 {
        return 0;
    }
    descriptors::descriptor(p, 4, width)
}

// The fields of a packet that is not refused.
#[tactic(auto, using(crate::proofs::BeaconLaws::beacon_fine), unfolding(crate::specs::Beacon::beacon_of))]
pub fn beacon_fields(p: &[u8]) -> Beacon
    requires { beacon_refusal p.now ≡ 0 }
    ensures { result ≡ beacon_of p.now }
{
    let w = first_word::word(p);
    let h = first_word::split(w);
    let f = beacon_flags::split(w);
    let start = endpoint_at(w);
    Beacon {
        flags: h.flags,
        largest: descriptors::descriptor_octets(w),
        bundles: f.bundles,
        streams: f.streams,
        send: beacon_flags::state_of(f.sending),
        receive: beacon_flags::state_of(f.receiving),
        width: beacon_flags::free_octets(w),
        free: free_space(p),
        start,
        length: p.len() - start,
    }
}

// Reads a packet that has to be BEACON.
#[tactic(auto, using(refusals::proofs::FaultLaws::fault_answers), unfolding(crate::specs::Beacon::read_beacon))]
pub fn read_beacon(p: &[u8]) -> Result<Beacon, Refusal>
    ensures { result ≡ read_beacon p.now }
{
    beacon_refusal(p)?;
    Ok(beacon_fields(p))
}
