// What stands before the holes in a STATUS of one transfer whose runs are kept in two rows of words.
#![tactic(auto)]

ghost use Rattle.std.specs.Prelude.{◌≡◌, ◌≤◌, length};
ghost use Rattle.octets.specs.Put.{put};
ghost use Rattle.run_rows.specs.Rows.{runs_in, RowsFit};
ghost use Rattle.timestamp.specs.Timestamps.{kept_octets};
ghost use Rattle.success_status.specs.SuccessStatus.{front_size, front_octets};
ghost use Rattle.transfer_status.specs.WriteStatus.{fields_sent};

use run_rows::Rows;
use success_status::Fields;
use timestamp::Kept;
use transfer::Key;

// What stands before the holes.
#[tactic(auto, unfolding(transfer_status::specs::WriteStatus::response_sent))]
pub fn put_front(
    buf: &[u8],
    key: Key,
    kept: Kept,
    rows: Rows,
    partial: bool,
    unasked: bool,
    out: &mut [u8],
)
    requires { RowsFit buf.now rows × (front_size (length (kept_octets kept)) key.width ≤ length out.old) }
    ensures { out.new
        ≡ put 0 (front_octets (fields_sent key (runs_in buf.now rows) partial unasked) (kept_octets kept)) out.old }
{
    let done = run_rows::is_complete(buf, rows, key.length);
    let progress = run_rows::progress_of(buf, rows);
    let edge = run_rows::edge_of(buf, rows);
    let response = transfer_status::response_sent(key.length, done, edge);
    let fields = Fields {
        id: key.id,
        width: key.width,
        partial,
        unasked: unasked || done,
        progress,
        response,
    };
    success_status::put_fields(out, fields, kept);
}
