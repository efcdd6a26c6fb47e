// The hole list of a success STATUS: its descriptors judged, and one pair of a list read and written.
#![tactic(auto)]

ghost use Rattle.std.specs.Prelude.{◌≡◌, ◌+◌, ◌*◌, ◌<◌, ◌≤◌, length};
ghost use Rattle.octets.specs.Numbers.{Width};
ghost use Rattle.octets.specs.Put.{put};
ghost use Rattle.header.specs.Descriptor.{descriptor_refusal};
ghost use Rattle.hole_list.specs.HoleList.{hole_at};
ghost use Rattle.hole_list.specs.DescriptorList.{descriptors_refusal};
ghost use Rattle.hole_list.specs.Pairs.{pair};
ghost use Rattle.refusals.specs.Faults.{refused};

use refusals::Fault;
use runs::Hole;

// The pair of descriptors of d octets at a place.
#[tactic(auto, using(header::proofs::DescriptorLaws::descriptor_there))]
pub fn hole_at(s: &[u8], at: usize, d: usize) -> Hole
    requires { Width d × (descriptor_refusal d at s.now ≡ 0) × (descriptor_refusal d (at + d) s.now ≡ 0) }
    ensures { result ≡ hole_at d at s.now }
{
    Hole {
        start: descriptors::descriptor(s, at, d),
        end: descriptors::descriptor(s, at + d, d),
    }
}

// The refusal of the first of the n descriptors of d octets from `from` on that is refused.
#[tactic(auto, using(crate::proofs::DescriptorListLaws::part_within, crate::proofs::DescriptorListLaws::descriptors_next, crate::proofs::DescriptorListLaws::no_descriptors))]
fn each_refusal(s: &[u8], from: usize, d: usize, n: usize) -> Result<(), Fault>
    requires { Width d × (from + n * d ≤ length s.now) }
    ensures { refused result ≡ descriptors_refusal d n from s.now }
{
    for i in 0..n {
        descriptors::descriptor_refusal(s, from + i * d, d)?;
    }
    Ok(())
}

// The same. At most eight octets have no upper ones, so that narrow descriptors need not be looked at.
#[tactic(auto, using(octets::proofs::NumberLaws::width_narrow, crate::proofs::DescriptorListLaws::narrow_none))]
pub fn descriptors_refusal(s: &[u8], from: usize, d: usize, n: usize) -> Result<(), Fault>
    requires { Width d × (from + n * d ≤ length s.now) }
    ensures { refused result ≡ descriptors_refusal d n from s.now }
{
    if d != 16 {
        return Ok(());
    }
    each_refusal(s, from, d, n)
}

// One hole, its start and its end.
#[tactic(auto, using(octets::proofs::PutLaws::put_next, octets::proofs::NumberLaws::length_digits))]
pub fn put_hole(out: &mut [u8], at: usize, width: usize, h: Hole)
    requires { at + 2 * width ≤ length out.old }
    ensures { out.new ≡ put at (pair width h) out.old }
{
    octets::write_number(out, at, width, h.start);
    octets::write_number(out, at + width, width, h.end);
}
