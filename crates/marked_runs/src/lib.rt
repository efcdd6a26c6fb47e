// The runs that marks stand for, found by walking them.
#![tactic(auto)]

ghost use Rattle.std.specs.Prelude.{◌≡◌, not, ◌*◌, ◌-◌, ◌%◌, ◌≤◌, ◌<◌, length};
ghost use Rattle.marks.specs.Marks.{mark_octets, mark_count, marked};
ghost use Rattle.marks.specs.Walk.{AllAre, FirstWith, RunsFound, blank_octet, blank_word};

// Whether mark n is set.
fn is_marked(marks: &[u8], n: usize) -> bool
    requires { n < 8 * length marks.now }
    ensures { result ≡ marked marks.now n }
{
    marks[n / 8] & marks::bit_of(n) != 0
}

// An octet in which no mark is as wanted.
fn blank_octet(wanted: bool) -> u8
    ensures { result ≡ blank_octet wanted }
{
    if wanted { 0 } else { u8::MAX }
}

// A word of such octets.
fn blank_word(wanted: bool) -> u64
    ensures { result ≡ blank_word wanted }
{
    if wanted { 0 } else { u64::MAX }
}

// A word from word `from` on, where none of the marks in the words before it is as wanted.
fn skip_words(marks: &[u8], from: usize, wanted: bool) -> usize
    requires { (mark_octets ≤ length marks.now) × (from * 64 ≤ mark_count) }
    ensures { AllAre (marked marks.now) (not wanted) (from * 64) (result * 64) × (result * 64 ≤ mark_count) }
{
    let blank = blank_word(wanted);
    for k in from..marks::OCTETS / 8 {
        if words::word(marks, k) != blank {
            return k;
        }
    }
    marks::OCTETS / 8
}

// The same by octets, and by words where a word begins. It is no `for`: the place jumps on over those words.
fn skip_octets(marks: &[u8], from: usize, wanted: bool) -> usize
    requires { (mark_octets ≤ length marks.now) × (from ≤ mark_octets) }
    ensures { AllAre (marked marks.now) (not wanted) (from * 8) (result * 8) × (result ≤ mark_octets) }
{
    let blank = blank_octet(wanted);
    let mut k = from;
    while k < marks::OCTETS {
        if marks[k] != blank {
            return k;
        }
        k += 1;
        if k % 8 == 0 {
            k = skip_words(marks, k / 8, wanted) * 8;
        }
    }
    k
}

// The first offset from `from` on whose mark is as wanted, and MARKS where there is none. Whole octets are passed over at once,
// so that this is no `for` either.
pub fn first(marks: &[u8], from: usize, wanted: bool) -> usize
    requires { (mark_octets ≤ length marks.now) × (from ≤ mark_count) }
    ensures { FirstWith (marked marks.now) wanted from mark_count result }
{
    let mut n = from;
    while n < marks::MARKS {
        if is_marked(marks, n) == wanted {
            return n;
        }
        n += 1;
        if n % 8 == 0 {
            n = skip_octets(marks, n / 8, wanted) * 8;
        }
    }
    n
}

// The runs of the marks, lowest first, stored in two rows of 64 words; how many there are, and 65 where there are more than 64.
pub fn find_runs(marks: &[u8], rows: &mut [u8]) -> usize
    requires { (mark_octets ≤ length marks.now) × (1024 ≤ length rows.old) }
    ensures { RunsFound marks.now rows.new result }
{
    let mut start = first(marks, 0, true);
    for n in 0..marks::RUNS {
        if start == marks::MARKS {
            return n;
        }
        let stop = first(marks, start, false);
        words::put_word(rows, n, start as u64);
        words::put_word(rows, marks::RUNS + n, stop as u64);
        start = first(marks, stop, true);
    }
    if start < marks::MARKS {
        marks::RUNS + 1
    } else {
        marks::RUNS
    }
}
