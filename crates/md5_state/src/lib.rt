// The state between two parts of a message: what is read of it, and storing it.
#![tactic(auto)]

ghost use Rattle.std.specs.Prelude.{◌≡◌, ◌++◌, ◌≤◌, length};
ghost use Rattle.octets.specs.Numbers.{be_digits};
ghost use Rattle.octets.specs.Put.{put};
ghost use Rattle.md5_words.specs.Words.{word_octets};
ghost use Rattle.md5_state.specs.State.{state_octets, state_refusal, count_of, begun_of};
ghost use Rattle.refusals.specs.Faults.{refused};

use refusals::Fault;

// The octets of a state, and where its number and its block stand.
const OCTETS: usize = 88;

const COUNT_AT: usize = 16;

const BLOCK_AT: usize = 24;

// Refusal 20 of octets that are lent for a state.
#[tactic(auto, unfolding(crate::specs::State::state_refusal))]
pub fn state_refusal(state: &[u8]) -> Result<(), Fault>
    ensures { refused result ≡ state_refusal state.now }
{
    if state.len() < OCTETS {
        return Err(Fault::NoRoom);
    }
    Ok(())
}

// The number of octets so far.
#[tactic(auto, unfolding(crate::specs::State::count_of))]
pub fn count(state: &[u8]) -> u64
    requires { state_octets ≤ length state.now }
    ensures { result ≡ count_of state.now }
{
    octets_read::read_eight(state, COUNT_AT)
}

// The octets of the block begun come to the front of out; the others stay.
#[tactic(auto, using(crate::proofs::StateLaws::begun_part))]
pub fn copy_begun(out: &mut [u8], state: &[u8])
    requires { (state_octets ≤ length state.now) × (64 ≤ length out.old) }
    ensures { out.new ≡ put 0 (begun_of state.now) out.old }
{
    let k = (count(state) % 64) as usize;
    let end = BLOCK_AT + k;
    octets::copy_into(out, 0, &state[BLOCK_AT..end]);
}

// Stores the words, the number and the 64 octets of the block. What is lent past the state stays.
#[tactic(auto, using(crate::proofs::StateLaws::state_puts))]
pub fn store(state: &mut [u8], v: [u32; 4], n: u64, block: &[u8; 64])
    requires { state_octets ≤ length state.old }
    ensures { state.new ≡ put 0 (word_octets v ++ (be_digits 8 n ++ block.now)) state.old }
{
    md5_words::write_words(state, v);
    octets::copy_into(state, COUNT_AT, &n.to_be_bytes());
    octets::copy_into(state, BLOCK_AT, block);
}
