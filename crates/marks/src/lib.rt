// One mark for each offset of a transfer, in 8,192 octets: mark n is bit n, the highest bit of each octet first.
#![tactic(auto)]

ghost use Rattle.std.specs.Prelude.{◌≡◌, not, ◌*◌, ◌-◌, ◌%◌, ◌^◌, ◌≤◌, ◌<◌, length};
ghost use Rattle.marks.specs.Marks.{mark_octets, mark_count, with_mark, with_marks, cleared};

pub const OCTETS: usize = 8192;

// One for each offset below it.
pub const MARKS: usize = OCTETS * 8;

// The runs that a transfer may have.
pub const RUNS: usize = 64;

// The bit of mark n in its octet.
pub fn bit_of(n: usize) -> u8
    ensures { result ≡ 2 ^ (7 - n % 8) }
{
    128 >> (n % 8)
}

// Sets mark n. One that is set stays.
#[tactic(auto, using(crate::proofs::MarkLaws::mark_written))]
fn set_mark(marks: &mut [u8], n: usize)
    requires { n < 8 * length marks.old }
    ensures { marks.new ≡ with_mark n marks.old }
{
    let k = n / 8;
    marks[k] |= bit_of(n);
}

// Sets the marks from `from` on, up to `to` and not including it, one by one.
fn set_each(marks: &mut [u8], from: usize, to: usize)
    requires { (from ≤ to) × (to ≤ 8 * length marks.old) }
    ensures { marks.new ≡ with_marks from (to - from) marks.old }
{
    for n in from..to {
        set_mark(marks, n);
    }
}

// Sets all marks of the octets from `from` on, up to `to` and not including it.
fn set_octets(marks: &mut [u8], from: usize, to: usize)
    requires { (from ≤ to) × (to ≤ length marks.old) }
    ensures { marks.new ≡ with_marks (from * 8) (to * 8 - from * 8) marks.old }
{
    marks[from..to].fill(255);
}

// Sets the marks from `from` on, up to `to` and not including it: whole octets at once, where there are any.
pub fn set_marks(marks: &mut [u8], from: usize, to: usize)
    requires { (from ≤ to) × (to ≤ mark_count) × (mark_octets ≤ length marks.old) }
    ensures { marks.new ≡ with_marks from (to - from) marks.old }
{
    let low = (from + 7) / 8;
    let high = to / 8;
    if high <= low {
        set_each(marks, from, to);
        return;
    }
    set_each(marks, from, low * 8);
    set_octets(marks, low, high);
    set_each(marks, high * 8, to);
}

// Clears every mark. Octets past the marks stay.
pub fn clear(marks: &mut [u8])
    requires { mark_octets ≤ length marks.old }
    ensures { marks.new ≡ cleared marks.old }
{
    marks[..OCTETS].fill(0);
}
