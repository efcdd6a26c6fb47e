// How many octets a descriptor and a timestamp have, and a descriptor at a place.
#![tactic(auto)]

ghost use Rattle.std.specs.Prelude.{◌≡◌, ◌+◌, ◌*◌, ◌<◌, ◌^◌};
ghost use Rattle.octets.specs.Numbers.{Width};
ghost use Rattle.header.specs.FirstWord.{descriptor_octets, timestamp_octets};
ghost use Rattle.header.specs.Descriptor.{descriptor_at, descriptor_refusal};
ghost use Rattle.refusals.specs.Faults.{refused};

use refusals::Fault;

// The octets of a descriptor, by the width bits of a word or of the properties.
pub fn octets_of_width(width: u64) -> usize
    requires { width < 4 }
    ensures { result ≡ 2 * 2 ^ width }
{
    2 << width
}

// The octets of a descriptor, by the first word or the flags.
pub fn descriptor_octets(w: u64) -> usize
    ensures { result ≡ descriptor_octets w }
{
    let h = first_word::split(w);
    octets_of_width(h.width)
}

// The octets of the timestamp, by the first word or the flags.
pub fn timestamp_octets(w: u64) -> usize
    ensures { result ≡ timestamp_octets w }
{
    let h = first_word::split(w);
    16 * (h.stamped as usize)
}

// Refusals 1 and 5 of the descriptor of d octets from `at` on.
#[tactic(auto, unfolding(header::specs::Descriptor::descriptor_refusal, octets::specs::Numbers::number_in))]
pub fn descriptor_refusal(s: &[u8], at: usize, d: usize) -> Result<(), Fault>
    requires { Width d × (at + d < 2 ^ 64) }
    ensures { refused result ≡ descriptor_refusal d at s.now }
{
    if s.len() < at + d {
        return Err(Fault::Short);
    }
    match octets_read::read_number(s, at, d) {
        Some(_) => Ok(()),
        None => Err(Fault::UpperOctets),
    }
}

// The value of the descriptor of d octets from `at` on, which is not refused: of 16 octets the last eight.
pub fn descriptor(s: &[u8], at: usize, d: usize) -> u64
    requires { Width d × (descriptor_refusal d at s.now ≡ 0) }
    ensures { result ≡ descriptor_at d at s.now }
{
    if d == 2 {
        return octets_read::read_two(s, at);
    }
    if d == 4 {
        return octets_read::read_four(s, at);
    }
    if d == 8 {
        return octets_read::read_eight(s, at);
    }
    octets_read::read_eight(s, at + 8)
}
