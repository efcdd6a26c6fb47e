// Numbers of eight octets with the lowest octet first, read from a buffer and stored in it.
#![tactic(auto)]

ghost use Rattle.std.specs.Prelude.{◌≡◌, ◌+◌, ◌≤◌, length, take, drop};
ghost use Rattle.octets.specs.Numbers.{le_value, le_digits};
ghost use Rattle.octets.specs.Put.{put};

// The number that the eight octets from `at` on stand for, the lowest first: one load.
#[tactic(auto, using(octets::proofs::LowFirstLaws::low_eight_octets))]
pub fn read_low_eight(s: &[u8], at: usize) -> u64
    requires { at + 8 ≤ length s.now }
    ensures { result ≡ le_value (take 8 (drop at s.now)) }
{
    u64::from_le_bytes([
        s[at],
        s[at + 1],
        s[at + 2],
        s[at + 3],
        s[at + 4],
        s[at + 5],
        s[at + 6],
        s[at + 7],
    ])
}

// The eight octets from `at` on become those of v, the lowest first; the others stay: one store.
#[tactic(auto, using(octets::proofs::LowFirstLaws::low_eight_bytes))]
pub fn write_low_eight(out: &mut [u8], at: usize, v: u64)
    requires { at + 8 ≤ length out.old }
    ensures { out.new ≡ put at (le_digits 8 v) out.old }
{
    octets::copy_into(out, at, &v.to_le_bytes());
}
