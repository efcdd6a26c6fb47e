// A timestamp of 16 octets that is kept, or none: as two numbers, read from octets and put into a buffer.
#![tactic(auto)]

ghost use Rattle.std.specs.Prelude.{◌≡◌, true, ◌+◌, ◌≤◌, length};
ghost use Rattle.octets.specs.Put.{put};
ghost use Rattle.timestamp.specs.Timestamps.{kept_octets, stamp_from};

// Whether a timestamp is kept, and then its first eight octets and its last eight, each as a number. It is no Option: C's record of a
// bitmap has these three numbers, and C gets back those that it handed in, also where no timestamp is kept.
#[derive(Clone, Copy)]
pub struct Kept {
    pub stamped: bool,
    pub high: u64,
    pub low: u64,
}

// The timestamp that stands from `at` on, or none.
#[tactic(auto, using(crate::proofs::KeptLaws::kept_read, crate::proofs::KeptLaws::read_none))]
pub fn read_stamp(s: &[u8], at: usize, stamped: bool) -> Kept
    requires { stamped ≡ true → at + 16 ≤ length s.now }
    ensures { kept_octets result ≡ stamp_from stamped at s.now }
{
    if !stamped {
        return Kept {
            stamped: false,
            high: 0,
            low: 0,
        };
    }
    Kept {
        stamped: true,
        high: octets_read::read_eight(s, at),
        low: octets_read::read_eight(s, at + 8),
    }
}

// How many octets it has.
#[tactic(auto, using(crate::proofs::KeptLaws::kept_sixteen, crate::proofs::KeptLaws::kept_zero))]
pub fn stamp_octets(kept: Kept) -> usize
    ensures { result ≡ length (kept_octets kept) }
{
    if kept.stamped { 16 } else { 0 }
}

// The timestamp, where there is one, from the place `at` on. Answers the place behind it.
#[tactic(auto, using(crate::proofs::KeptLaws::kept_sixteen, crate::proofs::KeptLaws::kept_zero, crate::proofs::KeptLaws::kept_put, crate::proofs::KeptLaws::kept_put_none))]
pub fn put_stamp(out: &mut [u8], at: usize, kept: Kept) -> usize
    requires { at + length (kept_octets kept) ≤ length out.old }
    ensures after { result ≡ at + length (kept_octets kept) }
    ensures octets { out.new ≡ put at (kept_octets kept) out.old }
{
    if !kept.stamped {
        return at;
    }
    octets::write_number(out, at, 8, kept.high);
    octets::write_number(out, at + 8, 8, kept.low);
    at + 16
}
