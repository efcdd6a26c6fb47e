// Words of 8 octets, the lowest first, one after the other in a buffer: one read, one written, a row of them spliced or moved in place.
#![tactic(auto)]

ghost use Rattle.std.specs.Prelude.{◌≡◌, ◌+◌, ◌*◌, ◌-◌, ◌≤◌, length};
ghost use Rattle.words.specs.Words.{word_at, put_word, spliced_row, moved_words};

// Word k.
pub fn word(buf: &[u8], k: usize) -> u64
    requires { k * 8 + 8 ≤ length buf.now }
    ensures { result ≡ word_at buf.now k }
{
    octets_stored::read_low_eight(buf, k * 8)
}

// Word k becomes v.
pub fn put_word(buf: &mut [u8], k: usize, v: u64)
    requires { k * 8 + 8 ≤ length buf.old }
    ensures { buf.new ≡ put_word k v buf.old }
{
    octets_stored::write_low_eight(buf, k * 8, v);
}

// Of the n words from word k on, those from the i-th up to the j-th give way to v. Where it is one word, none moves.
#[tactic(auto, using(octets::proofs::PutLaws::copied_put, crate::proofs::RowLaws::splice_one, crate::proofs::RowLaws::splice_moved))]
pub fn splice(buf: &mut [u8], k: usize, n: usize, i: usize, j: usize, v: u64)
    requires { (i ≤ j) × (j ≤ n) × ((k + n) * 8 ≤ length buf.old) × ((k + i + 1 + (n - j)) * 8 ≤ length buf.old) }
    ensures { buf.new ≡ spliced_row buf.old k n i j v }
{
    let at = (k + i) * 8;
    if i + 1 != j {
        buf.copy_within((k + j) * 8..(k + n) * 8, at + 8);
    }
    put_word(buf, k + i, v);
}

// The n words from word `from` on come to stand from word `to` on as well.
#[tactic(auto, using(octets::proofs::PutLaws::copied_put), unfolding(crate::specs::Words::moved_words))]
pub fn move_words(buf: &mut [u8], from: usize, to: usize, n: usize)
    requires { ((from + n) * 8 ≤ length buf.old) × ((to + n) * 8 ≤ length buf.old) }
    ensures { buf.new ≡ moved_words buf.old from to n }
{
    buf.copy_within(from * 8..(from + n) * 8, to * 8);
}
