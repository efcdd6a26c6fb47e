// A failure STATUS written.
#![tactic(auto)]

ghost use Rattle.std.specs.Prelude.{◌≡◌};
ghost use Rattle.failure_status.specs.WriteFailure.{failure_write_refusal, failure_written, failure_buffer};
ghost use Rattle.refusals.specs.Faults.{refused};

use refusals::{Fault, Refusal};

// The refusal of a failure STATUS to be written into `room` octets.
#[tactic(auto, unfolding(crate::specs::WriteFailure::failure_write_refusal))]
fn failure_write_refusal(id: u64, status: u64, room: usize) -> Result<(), Fault>
    ensures { refused result ≡ failure_write_refusal id status room }
{
    if 0x100000000 <= id || status == 0 || 255 < status {
        return Err(Fault::Field);
    }
    if room < 8 {
        return Err(Fault::NoRoom);
    }
    Ok(())
}

// Writes a failure STATUS into a lent buffer.
#[tactic(auto, using(crate::proofs::FailureLaws::failure_fine, crate::proofs::FailureLaws::failure_put, refusals::proofs::FaultLaws::fault_answers, refusals::proofs::FaultLaws::fault_buffer), unfolding(crate::specs::WriteFailure::failure_written, crate::specs::WriteFailure::failure_buffer))]
pub fn write_failure(out: &mut [u8], id: u64, status: u64) -> Result<usize, Refusal>
    ensures { (result ≡ failure_written id status out.old)
        × (out.new ≡ failure_buffer id status out.old) }
{
    failure_write_refusal(id, status, out.len())?;
    octets::write_number(out, 0, 4, first_word::join(4, status));
    octets::write_number(out, 4, 4, id);
    Ok(8)
}
