// The record `K`: the line of the check of a list of pieces, which is read from octets.
#![tactic(auto)]

ghost use Rattle.std.specs.Prelude.{◌≡◌, ◌+◌, ◌*◌, ◌≤◌, length};
ghost use Rattle.packet_status.specs.Status.{hole_list};
ghost use Rattle.plan.specs.Planning.{Readable};
ghost use Rattle.plan_check.specs.Checking.{check_all};
ghost use Rattle.text.specs.Added.{Added};
ghost use Rattle.replay_plan.specs.PlanLines.{piece_in, pieces_in, check_line};
ghost use Rattle.replay_plan.specs.PlanRecords.{check_lines};

use plan::Piece;
use plan_check::Check;
use replay_fields::{flag_of, part, put_field};
use replay_lines::put_bad_length;

// The piece with this index, of a list in octets.
fn piece_in(s: &[u8], index: usize) -> Piece
    requires { 16 * index + 16 ≤ length s.now }
    ensures { result ≡ piece_in s.now index }
{
    let offset_at = 16 * index;
    let length_at = offset_at + 8;
    Piece {
        offset: octets_read::read_eight(s, offset_at),
        length: octets_read::read_eight(s, length_at),
    }
}

// A check after n pieces of a list in octets; `first` is the check before them.
fn check_pieces(status: &[u8], largest: u64, s: &[u8], n: usize, first: Check) -> Check
    requires { (16 * n ≤ length s.now) × Readable status.now first.cursor.count }
    ensures { result ≡ check_all (hole_list status.now) largest first (pieces_in s.now n) }
{
    let mut k = first;
    for i in 0..n {
        let p = piece_in(s, i);
        k = plan_check::check_step(status, k, largest, p);
    }
    k
}

// Whether n pieces of a list in octets pass the check for a STATUS, or why it is not made.
fn put_check(
    out: &mut [u8],
    at: usize,
    number: u64,
    status: &[u8],
    largest: u64,
    s: &[u8],
    n: usize,
) -> usize
    requires { (at ≤ length out.old) × (16 * n ≤ length s.now) }
    ensures { Added out.old at (check_line number largest status.now (pieces_in s.now n)) out.new result }
{
    let first = match plan_check::check_start(status, largest) {
        Ok(first) => first,
        Err(fault) => return replay_lines::put_refused(out, at, number, fault.into()),
    };
    let k = check_pieces(status, largest, s, n, first);
    let passes = flag_of(plan_check::check_passed(k));
    let a = text::put_decimal(out, at, number);
    let b = put_field(out, a, b" check passes=", passes);
    text::push(out, b, 10)
}

// A record `K`: the check of a list of pieces for a STATUS. The body is the largest payload and the number of pieces, of 8 octets each,
// then for each piece an offset and a length, of 8 octets each, and the packet.
pub fn check_record(number: u64, body: &[u8], out: &mut [u8]) -> usize
    ensures { Added out.old 0 (check_lines number body.now) out.new result }
{
    if body.len() < 16 {
        return put_bad_length(out, 0, number);
    }
    let largest = octets_read::read_eight(body, 0);
    let count = octets_read::read_eight(body, 8);
    if 4096 < count {
        return put_bad_length(out, 0, number);
    }
    let n = count as usize;
    let end = 16 + 16 * n;
    if body.len() < end {
        return put_bad_length(out, 0, number);
    }
    let packet = part(body, end, body.len());
    let pieces = part(body, 16, body.len());
    put_check(out, 0, number, packet, largest, pieces, n)
}
