// The verdict on METADATA: whether what was added to an MD5 is the file that the packet's checksum is of.
#![tactic(auto)]

ghost use Rattle.std.specs.Prelude.{◌≡◌, ◌≤◌, length};
ghost use Rattle.md5_state.specs.State.{state_octets, digest_of};
ghost use Rattle.md5_verdict.specs.Verdict.{same_octets, checksum_type, checksum_of, verdict_refusal, check_md5};
ghost use Rattle.refusals.specs.Faults.{refused};

use refusals::{Fault, Refusal};

// What checking answers; each discriminant is the verdict's number.
#[derive(Clone, Copy)]
pub enum Verdict {
    NotChecked = 0,
    Agrees = 1,
    Differs = 2,
}

// The type of a checksum that is an MD5.
const MD5: u64 = 2;

// The checksum's type, by the packet's first word.
fn checksum_type(packet: &[u8]) -> u64
    requires { 4 ≤ length packet.now }
    ensures { result ≡ checksum_type packet.now }
{
    first_word::split(first_word::word(packet)).sum
}

// Whether the digest is the checksum, of a packet whose checksum has 16 octets.
fn agrees(packet: &[u8], state: &[u8]) -> bool
    requires { (24 ≤ length packet.now) × (state_octets ≤ length state.now) }
    ensures { result ≡ same_octets (digest_of state.now) (checksum_of packet.now) }
{
    let mut digest = [0u8; 16];
    md5_words::write_words(&mut digest, md5_digest::last_words(state));
    digest[..] == packet[8..24]
}

// Refusal 20 of the state, and then those of a packet that has to be METADATA.
#[tactic(auto, unfolding(crate::specs::Verdict::verdict_refusal))]
fn verdict_refusal(packet: &[u8], state: &[u8]) -> Result<(), Fault>
    ensures { refused result ≡ verdict_refusal packet.now state.now }
{
    md5_state::state_refusal(state)?;
    packet_metadata::metadata_refusal(packet)
}

// The verdict on a packet that has to be METADATA, by what was added to the state.
#[tactic(auto, using(refusals::proofs::FaultLaws::fault_answers, crate::proofs::VerdictLaws::word_there, crate::proofs::VerdictLaws::checksum_there, crate::proofs::VerdictLaws::state_there, crate::proofs::VerdictLaws::verdict_other, crate::proofs::VerdictLaws::verdict_same, crate::proofs::VerdictLaws::verdict_unlike), unfolding(crate::specs::Verdict::check_md5))]
pub fn check(packet: &[u8], state: &[u8]) -> Result<Verdict, Refusal>
    ensures { result ≡ check_md5 packet.now state.now }
{
    verdict_refusal(packet, state)?;
    if checksum_type(packet) != MD5 {
        return Ok(Verdict::NotChecked);
    }
    if agrees(packet, state) {
        return Ok(Verdict::Agrees);
    }
    Ok(Verdict::Differs)
}
