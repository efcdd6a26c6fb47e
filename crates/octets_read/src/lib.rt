// Numbers of d octets read, the highest octet first.
#![tactic(auto)]

ghost use Rattle.std.specs.Prelude.{◌≡◌, ◌+◌, ◌*◌, ◌≤◌, length, take, drop};
ghost use Rattle.octets.specs.Numbers.{be_value, Width, number_in};

// The number that the d octets from `at` on stand for, where those above the last eight are zero.
#[tactic(auto, using(octets::proofs::NumberLaws::width_narrow, octets::proofs::UpperLaws::short_number))]
pub fn read_number(s: &[u8], at: usize, d: usize) -> Option<u64>
    requires { Width d × (at + d ≤ length s.now) }
    ensures { result ≡ number_in (take d (drop at s.now)) }
{
    if d == 16 {
        return read_sixteen(s, at);
    }
    Some(read_narrow(s, at, d))
}

// The number that two, four or eight octets stand for, with no loop: each width is one `from_be_bytes`, which compiles to one load.
fn read_narrow(s: &[u8], at: usize, d: usize) -> u64
    requires { Width d × (d ≤ 8) × (at + d ≤ length s.now) }
    ensures { result ≡ be_value (take d (drop at s.now)) }
{
    if d == 8 {
        return read_eight(s, at);
    }
    if d == 4 {
        return read_four(s, at);
    }
    read_two(s, at)
}

// The number that the two octets from `at` on stand for.
#[tactic(auto, using(octets::proofs::PartLaws::two_octets))]
pub fn read_two(s: &[u8], at: usize) -> u64
    requires { at + 2 ≤ length s.now }
    ensures { result ≡ be_value (take 2 (drop at s.now)) }
{
    u16::from_be_bytes([s[at], s[at + 1]]) as u64
}

// The number that the four octets from `at` on stand for.
#[tactic(auto, using(octets::proofs::PartLaws::four_octets))]
pub fn read_four(s: &[u8], at: usize) -> u64
    requires { at + 4 ≤ length s.now }
    ensures { result ≡ be_value (take 4 (drop at s.now)) }
{
    u32::from_be_bytes([s[at], s[at + 1], s[at + 2], s[at + 3]]) as u64
}

// The number that the eight octets from `at` on stand for.
#[tactic(auto, using(octets::proofs::PartLaws::eight_octets))]
pub fn read_eight(s: &[u8], at: usize) -> u64
    requires { at + 8 ≤ length s.now }
    ensures { result ≡ be_value (take 8 (drop at s.now)) }
{
    u64::from_be_bytes([
        s[at],
        s[at + 1],
        s[at + 2],
        s[at + 3],
        s[at + 4],
        s[at + 5],
        s[at + 6],
        s[at + 7],
    ])
}

// The number of sixteen octets: that of the last eight, where the upper eight are zero.
#[tactic(auto, using(octets::proofs::UpperLaws::wide_small, octets::proofs::UpperLaws::sixteen_large))]
fn read_sixteen(s: &[u8], at: usize) -> Option<u64>
    requires { at + 16 ≤ length s.now }
    ensures { result ≡ number_in (take 16 (drop at s.now)) }
{
    if read_eight(s, at) != 0 {
        return None;
    }
    Some(read_eight(s, at + 8))
}
