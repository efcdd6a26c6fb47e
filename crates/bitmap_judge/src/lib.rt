// Whether marks are those of a transfer, and the runs that they have.
#![tactic(auto)]

ghost use Rattle.std.specs.Prelude.{◌≡◌, length, IfOk};
ghost use Rattle.refusals.specs.Faults.{refused};
ghost use Rattle.marks.specs.Walk.{run_rows};
ghost use Rattle.bitmap.specs.State.{openable, state_refusal};
ghost use Rattle.bitmap.specs.Judged.{RunsStand};

use refusals::Fault;
use run_rows::Rows;
use transfer::Key;

// Whether an opening takes this width and length.
#[tactic(auto, unfolding(bitmap::specs::State::openable))]
fn openable(key: Key) -> bool
    ensures { result ≡ openable key }
{
    transfer_key::length_ok(key.width as u64, key.length) && key.length <= bitmap::LONGEST
}

// The n runs that stand in two rows.
pub fn rows_of(n: usize) -> Rows
    ensures { result ≡ run_rows n }
{
    Rows {
        starts: 0,
        stops: marks::RUNS,
        count: n,
    }
}

// Walks the marks, stores their runs in rows, and tells how many there are; 20 where there are too few marks, 22 where they are no
// transfer's with this key.
#[tactic(auto, unfolding(bitmap::specs::State::state_refusal, bitmap::specs::State::marks_refusal, bitmap::specs::State::state_test))]
pub fn judge(key: Key, marks: &[u8], rows: &mut [u8]) -> Result<usize, Fault>
    requires { length rows.old ≡ 1024 }
    ensures refusal { refused result ≡ state_refusal key marks.now }
    ensures runs { IfOk result (λ n. RunsStand marks.now rows.new n) }
{
    if marks.len() < marks::OCTETS {
        return Err(Fault::NoRoom);
    }
    if !openable(key) {
        return Err(Fault::NoTable);
    }
    let n = marked_runs::find_runs(marks, rows);
    if marks::RUNS < n {
        return Err(Fault::NoTable);
    }
    if key.length < run_rows::edge_of(rows, rows_of(n)) {
        return Err(Fault::NoTable);
    }
    Ok(n)
}
