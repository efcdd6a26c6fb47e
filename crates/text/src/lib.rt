// Lines of text in a buffer: words, numbers in decimal and octets in hex, each put after what stands there already.
// A line that has no room is cut at the buffer's end. Nothing here knows of Saratoga. A line is a lent buffer and the place where it ends:
// a `fmt::Write` of our own would be no plainer, since its calls answer an error that never comes.
#![tactic(auto)]

ghost use Rattle.std.specs.Prelude.{◌≡◌, [], ◌∷◌, ◌<◌, ◌≤◌, length};
ghost use Rattle.octets.specs.Numbers.{be_digits};
ghost use Rattle.text.specs.Added.{Added};
ghost use Rattle.text.specs.Decimal.{decimal_of};
ghost use Rattle.text.specs.Hex.{glyph, hex_of};

use itoa::Buffer;

// One octet after the line so far, which ends at `at`.
pub fn push(out: &mut [u8], at: usize, b: u8) -> usize
    requires { at ≤ length out.old }
    ensures { Added out.old at (b ∷ []) out.new result }
{
    if at < out.len() {
        out[at] = b;
        return at + 1;
    }
    at
}

// A word after the line so far.
#[tactic(auto, using(crate::proofs::AddedLaws::added_part))]
pub fn put_text(out: &mut [u8], at: usize, s: &[u8]) -> usize
    requires { at ≤ length out.old }
    ensures { Added out.old at s.now out.new result }
{
    let n = s.len().min(out.len() - at);
    octets::copy_into(out, at, &s[..n]);
    at + n
}

// A number in decimal after the line so far.
pub fn put_decimal(out: &mut [u8], at: usize, n: u64) -> usize
    requires { at ≤ length out.old }
    ensures { Added out.old at (decimal_of n) out.new result }
{
    put_text(out, at, Buffer::new().format(n).as_bytes())
}

// A hex digit.
fn digit(d: u8) -> u8
    requires { d < 16 }
    ensures { result ≡ glyph d }
{
    if d < 10 { b'0' + d } else { b'a' + (d - 10) }
}

// Octets in hex after the line so far.
pub fn put_hex(out: &mut [u8], at: usize, s: &[u8]) -> usize
    requires { at ≤ length out.old }
    ensures { Added out.old at (hex_of s.now) out.new result }
{
    let mut next = at;
    for b in s {
        let high = push(out, next, digit(b / 16));
        next = push(out, high, digit(b % 16));
    }
    next
}

// The last d octets of a number in hex after the line so far.
pub fn put_number(out: &mut [u8], at: usize, d: usize, v: u64) -> usize
    requires { (at ≤ length out.old) × (d ≤ 8) }
    ensures { Added out.old at (hex_of (be_digits d v)) out.new result }
{
    let mut room = [0u8; 8];
    octets::write_number(&mut room, 0, d, v);
    put_hex(out, at, &room[..d])
}
