// Recording DATA in the marks of one transfer.
#![tactic(auto)]

ghost use Rattle.std.specs.Prelude.{◌≡◌};
ghost use Rattle.bitmap_extend.specs.Record.{data_refused, record_marks};
ghost use Rattle.bitmap_held.specs.Held.{record_held};
ghost use Rattle.refusals.specs.Faults.{refused};

use bitmap::Held;
use packet_data::Data;
use refusals::{Fault, Refusal};
use transfer::{Key, Receipt};

// What recording tells, and the record that it hands back. Not one Result: C is answered both, the record of no transfer with a refusal.
#[derive(Clone, Copy)]
pub struct Recording {
    pub told: Result<Receipt, Refusal>,
    pub held: Held,
}

// 12 for DATA of another Id, 13, 14 and 15.
#[tactic(auto, unfolding(bitmap_extend::specs::Record::data_refused))]
fn data_refused(key: Key, d: Data) -> Result<(), Fault>
    ensures { refused result ≡ data_refused key d }
{
    if d.id != key.id {
        return Err(Fault::NotOpen);
    }
    transfer_key::key_refusal(key, d)
}

// Marks a packet that has to be DATA. That the marks are no transfer's counts before what the packet is.
#[tactic(auto, using(bitmap_extend::proofs::RecordLaws::record_fault, bitmap_extend::proofs::RecordLaws::payload_some, bitmap_extend::proofs::RecordLaws::judged_stop, bitmap::proofs::StateLaws::marks_long), unfolding(bitmap_extend::specs::Record::record_marks, bitmap_extend::specs::Record::record_refusal))]
fn record_marks(key: Key, marks: &mut [u8], packet: &[u8]) -> Result<Receipt, Refusal>
    ensures answer { result ≡ (record_marks key marks.old packet.now).answer }
    ensures marks { marks.new ≡ (record_marks key marks.old packet.now).marks }
{
    let mut rows = [0u8; bitmap::ROW_OCTETS];
    let runs = bitmap_judge::judge(key, marks, &mut rows)?;
    packet_data::data_refusal(packet)?;
    let d = packet_data::data_fields(packet);
    data_refused(key, d)?;
    bitmap_extend::extend(key, marks, &rows, runs, d)
}

// Records a packet that has to be DATA.
#[tactic(auto, using(bitmap_held::proofs::HeldLaws::accepted_read, bitmap_held::proofs::HeldLaws::held_accepted, bitmap_held::proofs::HeldLaws::held_refused))]
pub fn record(held: Held, marks: &mut [u8], packet: &[u8]) -> Recording
    ensures told { result.told ≡ (record_marks held.key marks.old packet.now).answer }
    ensures held { result.held ≡ record_held held marks.old packet.now }
    ensures marks { marks.new ≡ (record_marks held.key marks.old packet.now).marks }
{
    let told = record_marks(held.key, marks, packet);
    match told {
        Ok(_) => Recording {
            told,
            held: bitmap_held::held_after(held, packet),
        },
        Err(_) => Recording {
            told,
            held: bitmap_held::no_held(),
        },
    }
}
