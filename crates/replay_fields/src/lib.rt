// The parts of a line: a name with a number in decimal, with octets in hex, or with the last octets of a number in hex; and a pair of
// numbers in a list.
#![tactic(auto)]

ghost use Rattle.std.specs.Prelude.{◌≡◌, ◌≤◌, min, length, take, drop};
ghost use Rattle.text.specs.Added.{Added};
ghost use Rattle.replay_fields.specs.Fields.{field, octets_field, number_field, pair_text, in_list, bits_of, flag_of, reached_text};

use transfer::Reached;

// A name and a number.
pub fn put_field(out: &mut [u8], at: usize, name: &[u8], v: u64) -> usize
    requires { at ≤ length out.old }
    ensures { Added out.old at (field name.now v) out.new result }
{
    let next = text::put_text(out, at, name);
    text::put_decimal(out, next, v)
}

// A name and octets.
pub fn put_octets(out: &mut [u8], at: usize, name: &[u8], s: &[u8]) -> usize
    requires { at ≤ length out.old }
    ensures { Added out.old at (octets_field name.now s.now) out.new result }
{
    let next = text::put_text(out, at, name);
    text::put_hex(out, next, s)
}

// A name and the last d octets of a number.
pub fn put_number(out: &mut [u8], at: usize, name: &[u8], d: usize, v: u64) -> usize
    requires { (at ≤ length out.old) × (d ≤ 8) }
    ensures { Added out.old at (number_field name.now d v) out.new result }
{
    let next = text::put_text(out, at, name);
    text::put_number(out, next, d, v)
}

// Two numbers, with a sign between them.
fn put_pair(out: &mut [u8], at: usize, sign: &[u8], a: u64, b: u64) -> usize
    requires { at ≤ length out.old }
    ensures { Added out.old at (pair_text sign.now a b) out.new result }
{
    let next = text::put_decimal(out, at, a);
    put_field(out, next, sign, b)
}

// The pair with this index in a list: after a comma, where it is not the first.
pub fn put_in_list(out: &mut [u8], at: usize, index: u64, sign: &[u8], a: u64, b: u64) -> usize
    requires { at ≤ length out.old }
    ensures { Added out.old at (in_list index (pair_text sign.now a b)) out.new result }
{
    if index == 0 {
        return put_pair(out, at, sign, a, b);
    }
    let next = text::push(out, at, b',');
    put_pair(out, next, sign, a, b)
}

// The bits of a descriptor of so many octets.
pub fn bits_of(width: usize) -> u64
    ensures { result ≡ bits_of width }
{
    match width {
        2 => 16,
        4 => 32,
        8 => 64,
        _ => 128,
    }
}

// 1 for yes and 0 for no.
pub fn flag_of(b: bool) -> u64
    ensures { result ≡ flag_of b }
{
    u64::from(b)
}

// How far a transfer has come.
pub fn put_reached(out: &mut [u8], at: usize, x: Reached) -> usize
    requires { at ≤ length out.old }
    ensures { Added out.old at (reached_text x) out.new result }
{
    let next = put_field(out, at, b" edge=", x.edge);
    put_field(out, next, b" complete=", flag_of(x.complete))
}

// The part of a packet that has n octets from `at` on, or what there is of it.
pub fn part(p: &[u8], at: usize, n: usize) -> &[u8]
    ensures { result.now ≡ take n (drop at p.now) }
{
    let rest = &p[at.min(p.len())..];
    &rest[..n.min(rest.len())]
}

// As many octets as are asked for, and at most as many as there is room for.
pub fn within(asked: u64, room: usize) -> usize
    ensures { result ≡ min asked room }
{
    asked.min(room as u64) as usize
}
