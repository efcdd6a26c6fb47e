// The record that recording in marks hands back.
#![tactic(auto)]

ghost use Rattle.std.specs.Prelude.{◌≡◌};
ghost use Rattle.timestamp.specs.Timestamps.{renewed, kept_octets, kept_from};
ghost use Rattle.packet_data.specs.Data.{data_refusal, data_of};
ghost use Rattle.transfer.specs.Record.{stamp_in};
ghost use Rattle.bitmap_held.specs.Held.{held_after, no_held};

use bitmap::Held;
use timestamp::Kept;
use transfer::Key;

// The timestamp that is kept after a packet that brings `new`, or none. Where none is kept, both halves are 0.
#[tactic(auto, using(crate::proofs::HeldLaws::new_kept, crate::proofs::HeldLaws::old_kept, crate::proofs::HeldLaws::none_kept))]
fn kept_after(new: Kept, old: Kept) -> Kept
    ensures { result ≡ kept_from (renewed (kept_octets new) (kept_octets old)) }
{
    if new.stamped {
        new
    } else if old.stamped {
        old
    } else {
        Kept {
            stamped: false,
            high: 0,
            low: 0,
        }
    }
}

// The record after a packet that was accepted.
#[tactic(auto, using(crate::proofs::HeldLaws::stamp_room, crate::proofs::HeldLaws::stamp_is), unfolding(crate::specs::Held::held_after))]
pub fn held_after(held: Held, packet: &[u8]) -> Held
    requires { data_refusal packet.now ≡ 0 }
    ensures { result ≡ held_after held (stamp_in packet.now (data_of packet.now)) }
{
    let d = packet_data::data_fields(packet);
    let new = timestamp::read_stamp(packet, 8, d.timestamp != 0);
    let kept = kept_after(new, held.kept);
    Held {
        key: held.key,
        kept,
    }
}

// The record of no transfer.
pub fn no_held() -> Held
    ensures { result ≡ no_held }
{
    bitmap_open::unstamped(Key {
        id: 0,
        width: 0,
        length: 0,
    })
}
