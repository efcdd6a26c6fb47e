// STATUS of one transfer whose runs are kept in two rows of words.
#![tactic(auto)]

ghost use Rattle.std.specs.Prelude.{◌≡◌};
ghost use Rattle.octets.specs.Numbers.{Width};
ghost use Rattle.run_rows.specs.Rows.{runs_in, RowsFine};
ghost use Rattle.timestamp.specs.Timestamps.{kept_octets};
ghost use Rattle.transfer_status.specs.WriteStatus.{transfer_written, transfer_buffer};

use refusals::Refusal;
use run_rows::Rows;
use timestamp::Kept;
use transfer::Key;

// STATUS of the transfer with this key, this timestamp and the runs in these rows: after the first `skip` holes as many as fit.
#[tactic(auto, using(octets::proofs::NumberLaws::width_le, timestamp::proofs::KeptLaws::kept_le, transfer_status::proofs::StatusSize::skip_there, transfer_status::proofs::StatusWriter::sent_room, refusals::proofs::FaultLaws::fault_answers, refusals::proofs::FaultLaws::fault_buffer), unfolding(transfer_status::specs::WriteStatus::transfer_written, transfer_status::specs::WriteStatus::transfer_buffer))]
pub fn write_rows(
    buf: &[u8],
    key: Key,
    kept: Kept,
    rows: Rows,
    skip: u64,
    unasked: bool,
    out: &mut [u8],
) -> Result<usize, Refusal>
    requires { RowsFine buf.now rows × Width key.width }
    ensures { (result ≡ transfer_written key (runs_in buf.now rows) (kept_octets kept) skip unasked out.old)
        × (out.new ≡ transfer_buffer key (runs_in buf.now rows) (kept_octets kept) skip unasked out.old) }
{
    let width = key.width;
    let stamp = timestamp::stamp_octets(kept);
    let holes = run_rows::hole_count(buf, rows);
    let room = out.len();
    transfer_status::size_refusal(stamp, width, holes, skip, room)?;
    let count = transfer_status::holes_to_send(stamp, width, holes, skip, room);
    let partial = transfer_status::partial_sent(stamp, width, holes, skip, room);
    let front = success_status::front_size(stamp, width);
    let size = success_status::status_size(stamp, width, count);
    row_front::put_front(buf, key, kept, rows, partial, unasked, out);
    row_holes::put_holes(buf, rows, width, skip as usize, count, out, front);
    Ok(size)
}
