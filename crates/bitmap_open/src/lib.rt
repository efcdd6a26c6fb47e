// Opening by METADATA in marks.
#![tactic(auto)]

ghost use Rattle.std.specs.Prelude.{◌≡◌};
ghost use Rattle.bitmap.specs.State.{unstamped};
ghost use Rattle.bitmap.specs.Open.{open_marks};

use bitmap::{Held, Opening};
use refusals::{Fault, Refusal};
use timestamp::Kept;
use transfer::Key;

// The record of a transfer that keeps no timestamp.
pub fn unstamped(key: Key) -> Held
    ensures { result ≡ unstamped key }
{
    let kept = Kept {
        stamped: false,
        high: 0,
        low: 0,
    };
    Held { key, kept }
}

// Opens by a packet that has to be METADATA, and always starts anew.
#[tactic(auto, using(bitmap::proofs::OpenLaws::open_fault), unfolding(bitmap::specs::Open::open_marks, bitmap::specs::Open::open_as, bitmap::specs::Open::open_refusal, bitmap::specs::State::marks_refusal))]
pub fn open(marks: &mut [u8], packet: &[u8]) -> Result<Opening, Refusal>
    ensures answer { result ≡ (open_marks marks.old packet.now).answer }
    ensures marks { marks.new ≡ (open_marks marks.old packet.now).marks }
{
    if marks.len() < marks::OCTETS {
        return Err(Fault::NoRoom.into());
    }
    packet_metadata::metadata_refusal(packet)?;
    let fields = packet_metadata::metadata_fields(packet);
    let key = transfer_key::key_of(fields);
    if bitmap::LONGEST < key.length {
        return Err(Fault::Size.into());
    }
    transfer_key::new_refusal(fields.flags)?;
    marks::clear(marks);
    let held = unstamped(key);
    let reached = transfer_key::reached_new(key);
    Ok(Opening { held, reached })
}
