// Numbers of 64 bits in groups of seven bits, the lowest group first, each in its one form (R18.1). Nothing here knows of settings.
#![tactic(auto)]

ghost use Rattle.std.specs.Prelude.{◌≡◌, ◌+◌, ◌≤◌, IfOk, length, drop};
ghost use Rattle.octets.specs.Put.{put};
ghost use Rattle.refusals.specs.Faults.{refused};
ghost use Rattle.varint.specs.Varint.{varint_octets, octet_refusal, varint_refusal, varint_in};

use refusals::Fault;

// A number that was read: its value, and how many octets it has.
#[derive(Clone, Copy)]
pub struct Varint {
    pub value: u64,
    pub size: usize,
}

// Refusal 25 of the octet x after k octets of its number.
#[tactic(auto, unfolding(crate::specs::Varint::octet_refusal))]
fn octet_refusal(k: usize, x: u64) -> Result<(), Fault>
    ensures { refused result ≡ octet_refusal k x }
{
    if k == 9 && 1 < x {
        return Err(Fault::Settings);
    }
    if 0 < k && x == 0 {
        return Err(Fault::Settings);
    }
    Ok(())
}

// Reads the number that begins at `at`. Refusals 1 and 25.
#[tactic(auto, using(crate::proofs::ReadingLaws::reading_start))]
pub fn read(s: &[u8], at: usize) -> Result<Varint, Fault>
    requires { at ≤ length s.now }
    ensures refusal { refused result ≡ varint_refusal (drop at s.now) }
    ensures number { IfOk result (λ v. v ≡ varint_in (drop at s.now)) }
    ensures within { IfOk result (λ v. at + v.size ≤ length s.now) }
{
    let mut value: u64 = 0;
    let mut scale: u64 = 1;
    for (k, octet) in s[at..].iter().enumerate() {
        let x = u64::from(*octet);
        octet_refusal(k, x)?;
        if x < 128 {
            return Ok(Varint {
                value: value + x * scale,
                size: k + 1,
            });
        }
        value += (x - 128) * scale;
        scale *= 128;
    }
    Err(Fault::Short)
}

// How many octets the form of n has.
#[tactic(auto, using(crate::proofs::WrittenLaws::length_small, crate::proofs::WrittenLaws::length_large, crate::proofs::WrittenLaws::octets_most))]
pub fn size(n: u64) -> usize
    ensures { result ≡ length (varint_octets n) }
{
    let mut k: usize = 1;
    let mut rest = n; // what is counted is the groups of a number that shrinks: a `while` is the plain form, here and in `write`
    while 128 <= rest {
        rest /= 128;
        k += 1;
    }
    k
}

// The octets from `at` on become those of n, and the place after them is handed back; the others stay.
#[tactic(auto, using(crate::proofs::WrittenLaws::length_small, crate::proofs::WrittenLaws::length_large, crate::proofs::WrittenLaws::octets_some, crate::proofs::WrittenLaws::write_step, crate::proofs::WrittenLaws::write_last))]
pub fn write(out: &mut [u8], at: usize, n: u64) -> usize
    requires { at + length (varint_octets n) ≤ length out.old }
    ensures { (result ≡ at + length (varint_octets n))
        × (out.new ≡ put at (varint_octets n) out.old) }
{
    let mut next = at;
    let mut rest = n;
    while 128 <= rest {
        out[next] = (128 + rest % 128) as u8;
        rest /= 128;
        next += 1;
    }
    out[next] = rest as u8;
    next + 1
}
