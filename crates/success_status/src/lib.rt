// A success STATUS as a packet: its fields, its size, and what stands before its holes, the timestamp included.
#![tactic(auto)]

ghost use Rattle.std.specs.Prelude.{◌≡◌, ◌^◌, ◌≤◌, ◌<◌, length};
ghost use Rattle.octets.specs.Put.{put};
ghost use Rattle.timestamp.specs.Timestamps.{kept_octets};
ghost use Rattle.success_status.specs.SuccessStatus.{front_size, status_size, width_bits, status_flags, front_octets};

use timestamp::Kept;

// The fields of a success STATUS that is to be written. `width` counts octets, `partial` is bit 14 and `unasked` bit 15.
#[derive(Clone, Copy)]
pub struct Fields {
    pub id: u64,
    pub width: usize,
    pub partial: bool,
    pub unasked: bool,
    pub progress: u64,
    pub response: u64,
}

// The octets before the holes, where `stamp` counts those of the timestamp.
pub fn front_size(stamp: usize, width: usize) -> usize
    requires { (stamp ≤ 16) × (width ≤ 16) }
    ensures { result ≡ front_size stamp width }
{
    8 + stamp + 2 * width
}

// The octets of a STATUS with so many holes.
pub fn status_size(stamp: usize, width: usize, holes: usize) -> usize
    requires { (stamp ≤ 16) × (width ≤ 16) × (status_size stamp width holes < 2 ^ 64) }
    ensures { result ≡ status_size stamp width holes }
{
    front_size(stamp, width) + 2 * width * holes
}

// The width bits of a descriptor's octets.
#[tactic(auto, unfolding(crate::specs::SuccessStatus::width_bits))]
fn width_bits(width: usize) -> u64
    ensures { result ≡ width_bits width }
{
    match width {
        2 => 0,
        4 => 1,
        8 => 2,
        _ => 3,
    }
}

// The flags: the width in bits 8 and 9, then bit 12, bit 14 and bit 15.
#[tactic(auto, using(crate::proofs::FlagLaws::flags_or))]
fn status_flags(stamped: bool, f: Fields) -> u64
    ensures { result ≡ status_flags stamped f }
{
    let w = width_bits(f.width);
    let s = refusals::bit_of(stamped);
    let p = refusals::bit_of(f.partial);
    let u = refusals::bit_of(f.unasked);
    (((w << 22) | (s << 19)) | (p << 17)) | (u << 16)
}

// What stands before the holes: the word with the flags, the Id, the timestamp, Progress and In-Response-To.
#[tactic(auto, using(crate::proofs::PutLaws::puts, crate::proofs::FlagLaws::flags_fit, timestamp::proofs::KeptLaws::kept_stamped, octets::proofs::NumberLaws::length_digits), unfolding(crate::specs::SuccessStatus::front_octets))]
pub fn put_fields(out: &mut [u8], f: Fields, kept: Kept)
    requires { front_size (length (kept_octets kept)) f.width ≤ length out.old }
    ensures { out.new ≡ put 0 (front_octets f (kept_octets kept)) out.old }
{
    let width = f.width;
    let flags = status_flags(kept.stamped, f);
    octets::write_number(out, 0, 4, first_word::join(4, flags));
    octets::write_number(out, 4, 4, f.id);
    let at = timestamp::put_stamp(out, 8, kept);
    octets::write_number(out, at, width, f.progress);
    octets::write_number(out, at + width, width, f.response);
}
