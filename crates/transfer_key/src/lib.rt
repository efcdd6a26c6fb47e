// The key of one transfer: what METADATA opens, and what DATA is refused with by it.
#![tactic(auto)]

ghost use Rattle.std.specs.Prelude.{◌≡◌, []};
ghost use Rattle.transfer.specs.Transfers.{key_of, length_test, reached};
ghost use Rattle.transfer.specs.Record.{key_refusal};
ghost use Rattle.transfer.specs.Opening.{new_refusal};
ghost use Rattle.refusals.specs.Faults.{refused};

use packet_data::Data;
use packet_metadata::Metadata;
use refusals::Fault;
use transfer::{Key, Reached};

// The key that METADATA opens.
pub fn key_of(m: Metadata) -> Key
    ensures { result ≡ key_of m }
{
    Key {
        id: m.id,
        width: m.width,
        length: m.entry.size,
    }
}

// What METADATA of a new Id is refused with, by its flags: 23 for a CRC-32c.
#[tactic(auto, unfolding(transfer::specs::Opening::new_refusal))]
pub fn new_refusal(flags: u64) -> Result<(), Fault>
    ensures { refused result ≡ new_refusal flags }
{
    let h = first_word::split(flags);
    if h.sum == 1 {
        return Err(Fault::OldChecksum);
    }
    Ok(())
}

// How far a transfer has come that was just opened.
pub fn reached_new(key: Key) -> Reached
    ensures { result ≡ reached key [] }
{
    Reached {
        edge: 0,
        complete: key.length == 0,
    }
}

// Whether an opening takes this width and length: the width is one of the four, and the length fits it.
pub fn length_ok(width: u64, length: u64) -> bool
    ensures { result ≡ length_test width length }
{
    if width == 2 {
        return length < 65536;
    }
    if width == 4 {
        return length < 4294967296;
    }
    if width == 8 {
        return true;
    }
    width == 16
}

// 13, 14 and 15 for DATA of a transfer with this key. No sum is made that could wrap.
#[tactic(auto, unfolding(transfer::specs::Record::key_refusal))]
pub fn key_refusal(key: Key, d: Data) -> Result<(), Fault>
    ensures { refused result ≡ key_refusal key d }
{
    if d.width != key.width {
        return Err(Fault::OtherWidth);
    }
    let octets = d.length as u64;
    if key.length < octets {
        return Err(Fault::PastEnd);
    }
    if key.length - octets < d.offset {
        return Err(Fault::PastEnd);
    }
    if d.eod != 1 {
        return Ok(());
    }
    if d.offset + octets != key.length {
        return Err(Fault::NotTheEnd);
    }
    Ok(())
}
