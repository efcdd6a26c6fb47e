// STATUS of one transfer, wherever its runs are kept: what is refused, how many holes are written, and which fields stand before them.
#![tactic(auto)]

ghost use Rattle.std.specs.Prelude.{◌≡◌, cond, ◌-◌, ◌≤◌, ◌<◌, min};
ghost use Rattle.octets.specs.Numbers.{Width};
ghost use Rattle.success_status.specs.SuccessStatus.{front_size};
ghost use Rattle.transfer_status.specs.WriteStatus.{skips_too_many, least_room, size_refusal, hole_room, partial_sent, last_offset};
ghost use Rattle.refusals.specs.Faults.{refused};

use refusals::Fault;

// Whether that many holes can't be skipped: neither 0 nor less than their number.
fn skips_too_many(skip: u64, holes: usize) -> bool
    ensures { result ≡ skips_too_many skip holes }
{
    skip != 0 && holes as u64 <= skip
}

// The octets that a STATUS has at least.
fn least_room(stamp: usize, width: usize, holes: usize) -> usize
    requires { (stamp ≤ 16) × (width ≤ 16) }
    ensures { result ≡ least_room stamp width holes }
{
    if holes == 0 {
        return success_status::front_size(stamp, width);
    }
    success_status::status_size(stamp, width, 1)
}

// Refusals 19 and 20. `stamp` counts the octets of timestamp, and `room` is the buffer's length.
#[tactic(auto, unfolding(crate::specs::WriteStatus::size_refusal))]
pub fn size_refusal(
    stamp: usize,
    width: usize,
    holes: usize,
    skip: u64,
    room: usize,
) -> Result<(), Fault>
    requires { (stamp ≤ 16) × (width ≤ 16) }
    ensures { refused result ≡ size_refusal stamp width holes skip room }
{
    if skips_too_many(skip, holes) {
        return Err(Fault::NoSuchHole);
    }
    if room < least_room(stamp, width, holes) {
        return Err(Fault::NoRoom);
    }
    Ok(())
}

// How many holes have room behind the fields.
fn hole_room(stamp: usize, width: usize, room: usize) -> usize
    requires { (stamp ≤ 16) × (0 < width) × (width ≤ 16) × (front_size stamp width ≤ room) }
    ensures { result ≡ hole_room stamp width room }
{
    (room - success_status::front_size(stamp, width)) / (2 * width)
}

// How many holes are written: of those that are left as many as have room.
pub fn holes_to_send(stamp: usize, width: usize, holes: usize, skip: u64, room: usize) -> usize
    requires { (stamp ≤ 16) × Width width × (size_refusal stamp width holes skip room ≡ 0) }
    ensures { result ≡ min (holes - skip) (hole_room stamp width room) }
{
    let left = holes - skip as usize;
    left.min(hole_room(stamp, width, room))
}

// Bit 14: whether some hole is skipped or does not fit.
pub fn partial_sent(stamp: usize, width: usize, holes: usize, skip: u64, room: usize) -> bool
    requires { (stamp ≤ 16) × Width width × (size_refusal stamp width holes skip room ≡ 0) }
    ensures { result ≡ partial_sent stamp width skip room holes }
{
    0 < skip || hole_room(stamp, width, room) < holes
}

// In-Response-To: the last offset of a complete transfer, 0 where it has none, and else the edge.
pub fn response_sent(length: u64, complete: bool, edge: u64) -> u64
    ensures { result ≡ cond complete (last_offset length) edge }
{
    if !complete {
        return edge;
    }
    length.saturating_sub(1)
}
