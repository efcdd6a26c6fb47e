// Plain octets: numbers of d octets written into a buffer, and copies into one. Nothing here knows of Saratoga.
#![tactic(auto)]

ghost use Rattle.std.specs.Prelude.{◌≡◌, ◌+◌, ◌*◌, ◌^◌, ◌≤◌, ◌<◌, ltb, length};
ghost use Rattle.octets.specs.Numbers.{be_digits};
ghost use Rattle.octets.specs.Put.{put};

// The d octets from `at` on become those of v; the others stay.
pub fn write_number(out: &mut [u8], at: usize, d: usize, v: u64)
    requires { at + d ≤ length out.old }
    ensures { out.new ≡ put at (be_digits d v) out.old }
{
    let mut w = v;
    for k in (0..d).rev() {
        out[at + k] = (w % 256) as u8;
        w /= 256;
    }
}

// The octets of src come into out from `at` on; the others stay.
#[tactic(auto, unfolding(crate::specs::Put::put))]
pub fn copy_into(out: &mut [u8], at: usize, src: &[u8])
    requires { at + length src.now ≤ length out.old }
    ensures { out.new ≡ put at src.now out.old }
{
    out[at..at + src.len()].copy_from_slice(src);
}

// Whether v has at most d octets. From 8 on every u64 has.
#[tactic(auto, using(crate::proofs::NumberLaws::wide_fits, crate::proofs::NumberLaws::shifted_out))]
pub fn fits(v: u64, d: usize) -> bool
    ensures { result ≡ ltb v (256 ^ d) }
{
    8 <= d || v >> (8 * d) == 0
}
