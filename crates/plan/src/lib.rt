// What to send again: the pieces that fill the holes of a STATUS, and which STATUS can be planned for.
#![tactic(auto)]

ghost use Rattle.std.specs.Prelude.{◌≡◌, not, length, IfOk};
ghost use Rattle.packet_status.specs.Status.{hole_list};
ghost use Rattle.refusals.specs.Refusals.{when};
ghost use Rattle.plan.specs.Planning.{allowed, resend_refusal};
ghost use Rattle.refusals.specs.Faults.{refused};

use refusals::Fault;

// Octets to send: the first one's offset, and how many. struct saratoga_piece.
#[repr(C)]
#[derive(Clone, Copy)]
pub struct Piece {
    pub offset: u64,
    pub length: u64,
}

// How many pieces a plan has, and of how many holes.
#[derive(Clone, Copy)]
pub struct Plan {
    pub count: u64,
    pub holes: usize,
}

// How far a plan or a check has come: the octets from `offset` to `end` are next, then the holes from the index `next` on, of
// `count`. Where nothing is left, `offset` is `end`.
#[derive(Clone, Copy)]
pub struct Cursor {
    pub offset: u64,
    pub end: u64,
    pub next: usize,
    pub count: usize,
}

// Refusal 21 of a largest payload.
fn largest_refusal(largest: u64) -> Result<(), Fault>
    ensures { refused result ≡ when (not (allowed largest)) 21 }
{
    if largest == 0 {
        return Err(Fault::Field);
    }
    if 65000 < largest {
        return Err(Fault::Field);
    }
    Ok(())
}

// The refusal of a packet that has to be a success STATUS, and of the largest payload.
#[tactic(auto, using(packet_status::proofs::StatusLaws::status_long), unfolding(crate::specs::Planning::resend_refusal))]
fn resend_refusal(status: &[u8], largest: u64) -> Result<(), Fault>
    ensures { refused result ≡ resend_refusal largest status.now }
{
    packet_status::status_refusal(status)?;
    let h = first_word::split(first_word::word(status));
    if h.status != 0 {
        return Err(Fault::Holes);
    }
    largest_refusal(largest)
}

// The same, with the number of holes to fill.
#[tactic(auto, using(crate::proofs::ResendLaws::resend_read, crate::proofs::ResendLaws::resend_success, packet_status::proofs::StatusLaws::length_list))]
pub fn judge(status: &[u8], largest: u64) -> Result<usize, Fault>
    ensures number { refused result ≡ resend_refusal largest status.now }
    ensures holes { IfOk result (λ n. n ≡ length (hole_list status.now)) }
{
    resend_refusal(status, largest)?;
    Ok(status_fields::hole_count(status))
}
