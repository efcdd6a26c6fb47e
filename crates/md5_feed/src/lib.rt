// A message in parts: beginning, and adding a part.
#![tactic(auto)]

ghost use Rattle.std.specs.Prelude.{◌≡◌, ◌≤◌, length};
ghost use Rattle.octets.specs.Put.{put};
ghost use Rattle.md5_state.specs.State.{state_octets, state_refusal, fed};
ghost use Rattle.md5_feed.specs.Feed.{begin_state, add_state};
ghost use Rattle.refusals.specs.Faults.{refused};

use refusals::Fault;

// Stores the state of a message of which nothing came yet, or tells refusal 20.
#[tactic(auto, using(md5_state::proofs::StateLaws::state_long, md5_state::proofs::StateLaws::state_fine), unfolding(crate::specs::Feed::begin_state, md5_state::specs::State::begun, md5_state::specs::State::state_of))]
pub fn begin(state: &mut [u8]) -> Result<(), Fault>
    ensures { (refused result ≡ state_refusal state.old) × (state.new ≡ begin_state state.old) }
{
    md5_state::state_refusal(state)?;
    let start = [0x67452301, 0xefcdab89, 0x98badcfe, 0x10325476];
    md5_state::store(state, start, 0, &[0; 64]);
    Ok(())
}

// The state after one part more. The block begun is filled up and run, then the rest of the part is run where it is, and what is
// left of it is the block begun.
#[tactic(auto, using(crate::proofs::FeedLaws::add_short))]
fn feed(state: &mut [u8], part: &[u8])
    requires { state_octets ≤ length state.old }
    ensures { state.new ≡ put 0 (fed state.old part.now) state.old }
{
    let v = md5_words::four_words(state);
    let n = md5_state::count(state);
    let m = n.wrapping_add(part.len() as u64);
    let k = (n % 64) as usize;
    let room = 64 - k;
    let mut block = [0u8; 64];
    md5_state::copy_begun(&mut block, state);
    if part.len() < room {
        octets::copy_into(&mut block, k, part);
        md5_state::store(state, v, m, &block);
        return;
    }
    let (filling, rest) = part.split_at(room);
    octets::copy_into(&mut block, k, filling);
    let w = md5_blocks::run_blocks(v, &block);
    let x = md5_blocks::run_blocks(w, rest);
    let (_, left) = rest.as_chunks::<64>();
    let mut last = [0u8; 64];
    octets::copy_into(&mut last, 0, left);
    md5_state::store(state, x, m, &last);
}

// Adds a part, or tells refusal 20.
#[tactic(auto, using(md5_state::proofs::StateLaws::state_long), unfolding(crate::specs::Feed::add_state))]
pub fn add(state: &mut [u8], part: &[u8]) -> Result<(), Fault>
    ensures { (refused result ≡ state_refusal state.old) × (state.new ≡ add_state state.old part.now) }
{
    md5_state::state_refusal(state)?;
    feed(state, part);
    Ok(())
}
