// Ending a message: the padding, and the digest.
#![tactic(auto)]

ghost use Rattle.std.specs.Prelude.{◌≡◌, ◌-◌, ◌%◌, ◌<◌, ◌≤◌, length};
ghost use Rattle.md5_state.specs.State.{state_octets, last_words};
ghost use Rattle.md5_digest.specs.End.{end_refusal, digest_written, digest_buffer};
ghost use Rattle.refusals.specs.Faults.{refused};

use refusals::{Fault, Refusal};

// The octets of a digest.
const OCTETS: usize = 16;

// Where the number of bits stands, after k octets of the block begun and 0x80: at the end of that block, or of the one after it.
fn number_at(k: usize) -> usize
    requires { k < 64 }
    ensures { (k < result) × (result ≤ 120) × ((119 - k) % 64 ≡ result - 1 - k) }
{
    if k < 56 { 56 } else { 120 }
}

// The words after the padding. It ends the block begun where that has room for 0x80 and the number of bits, else the block after it.
pub fn last_words(state: &[u8]) -> [u32; 4]
    requires { state_octets ≤ length state.now }
    ensures { result ≡ last_words state.now }
{
    let v = md5_words::four_words(state);
    let n = md5_state::count(state);
    let k = (n % 64) as usize;
    let mut b = [0u8; 128];
    md5_state::copy_begun(&mut b, state);
    b[k] = 0x80;
    let at = number_at(k);
    octets_stored::write_low_eight(&mut b, at, n << 3);
    md5_blocks::run_blocks(v, &b[..at + 8])
}

// Refusal 20 of the state and of the buffer.
#[tactic(auto, unfolding(crate::specs::End::end_refusal))]
fn end_refusal(state: &[u8], out: &[u8]) -> Result<(), Fault>
    ensures { refused result ≡ end_refusal state.now out.now }
{
    md5_state::state_refusal(state)?;
    if out.len() < OCTETS {
        return Err(Fault::NoRoom);
    }
    Ok(())
}

// Writes the digest of all that was added.
#[tactic(auto, using(crate::proofs::EndLaws::end_fine, refusals::proofs::FaultLaws::fault_answers), unfolding(crate::specs::End::digest_written, crate::specs::End::digest_buffer, md5_state::specs::State::digest_of))]
pub fn end(state: &[u8], out: &mut [u8]) -> Result<usize, Refusal>
    ensures { (result ≡ digest_written state.now out.old)
        × (out.new ≡ digest_buffer state.now out.old) }
{
    end_refusal(state, out)?;
    md5_words::write_words(out, last_words(state));
    Ok(OCTETS)
}
