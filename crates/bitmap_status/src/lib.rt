// STATUS of one transfer by its marks, which are only read.
#![tactic(auto)]

ghost use Rattle.std.specs.Prelude.{◌≡◌};
ghost use Rattle.bitmap_status.specs.WriteStatus.{marks_written, marks_buffer};

use bitmap::Held;
use refusals::{Fault, Refusal};

// Writes STATUS into a lent buffer, with the timestamp that is kept.
#[tactic(auto, using(refusals::proofs::FaultLaws::fault_answers, refusals::proofs::FaultLaws::fault_buffer, crate::proofs::StatusLaws::rows_fine, crate::proofs::StatusLaws::rows_runs, crate::proofs::StatusLaws::state_width), unfolding(crate::specs::WriteStatus::marks_written, crate::specs::WriteStatus::marks_buffer, crate::specs::WriteStatus::id_refusal, transfer_status::specs::WriteStatus::transfer_written, transfer_status::specs::WriteStatus::transfer_buffer))]
pub fn write_status(
    held: Held,
    marks: &[u8],
    skip: u64,
    unasked: bool,
    out: &mut [u8],
) -> Result<usize, Refusal>
    ensures answer { result ≡ marks_written held marks.now skip unasked out.old }
    ensures buffer { out.new ≡ marks_buffer held marks.now skip unasked out.old }
{
    let mut rows = [0u8; bitmap::ROW_OCTETS];
    let runs = bitmap_judge::judge(held.key, marks, &mut rows)?;
    if 4294967296 <= held.key.id {
        return Err(Fault::NotOpen.into());
    }
    row_status::write_rows(
        &rows,
        held.key,
        held.kept,
        bitmap_judge::rows_of(runs),
        skip,
        unasked,
        out,
    )
}
