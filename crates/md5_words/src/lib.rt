// Words of 32 bits, the lowest octet first: read from octets, four or sixteen at once, and four of them written.
#![tactic(auto)]

ghost use Rattle.std.specs.Prelude.{◌≡◌, ◌+◌, ◌≤◌, length};
ghost use Rattle.octets.specs.Put.{put};
ghost use Rattle.md5_words.specs.Words.{word_at, words_at, word_octets};

// The word of the four octets from `at` on: one load.
#[tactic(auto, using(octets::proofs::LowFirstLaws::low_four_octets), unfolding(crate::specs::Words::word_at))]
fn word(s: &[u8], at: usize) -> u32
    requires { at + 4 ≤ length s.now }
    ensures { result ≡ word_at s.now at }
{
    u32::from_le_bytes([s[at], s[at + 1], s[at + 2], s[at + 3]])
}

// The four words of the first 16 octets.
pub fn four_words(s: &[u8]) -> [u32; 4]
    requires { 16 ≤ length s.now }
    ensures { result ≡ words_at s.now 0 4 }
{
    [word(s, 0), word(s, 4), word(s, 8), word(s, 12)]
}

// The 16 words of a block, which is the first 64 octets. They are written out: `array::from_fn` says too little of what its closure
// captured for the proof, and a loop with an invariant is no plainer.
pub fn decode(block: &[u8]) -> [u32; 16]
    requires { 64 ≤ length block.now }
    ensures { result ≡ words_at block.now 0 16 }
{
    [
        word(block, 0),
        word(block, 4),
        word(block, 8),
        word(block, 12),
        word(block, 16),
        word(block, 20),
        word(block, 24),
        word(block, 28),
        word(block, 32),
        word(block, 36),
        word(block, 40),
        word(block, 44),
        word(block, 48),
        word(block, 52),
        word(block, 56),
        word(block, 60),
    ]
}

// Four words become the first 16 octets; the others stay.
#[tactic(auto, using(crate::proofs::WordLaws::word_puts))]
pub fn write_words(out: &mut [u8], v: [u32; 4])
    requires { 16 ≤ length out.old }
    ensures { out.new ≡ put 0 (word_octets v) out.old }
{
    octets::copy_into(out, 0, &v[0].to_le_bytes());
    octets::copy_into(out, 4, &v[1].to_le_bytes());
    octets::copy_into(out, 8, &v[2].to_le_bytes());
    octets::copy_into(out, 12, &v[3].to_le_bytes());
}
