// The bitmap receiver: one transfer, with one mark for each of its octets, and a record that C hands in and gets back.
#![tactic(auto)]

ghost use Rattle.std.specs.Prelude.{◌≡◌};
ghost use Rattle.bitmap.specs.Open.{open_marks};
ghost use Rattle.bitmap_extend.specs.Record.{record_marks};
ghost use Rattle.bitmap_held.specs.Held.{record_held};
ghost use Rattle.bitmap_status.specs.WriteStatus.{marks_written, marks_buffer};
ghost use Rattle.answers.specs.Answers.{is_unasked, written_answer};
ghost use Rattle.answer_marks.specs.BitmapAnswers.{key_from, held_from, bitmap_of, no_bitmap, bitmap_opened_answer, bitmap_recorded_answer};

use answers::{RecordedAnswer, WrittenAnswer};
use bitmap::{Held, Opening};
use bitmap_record::Recording;
use refusals::Refusal;
use timestamp::Kept;
use transfer::Key;

// struct saratoga_bitmap.
#[repr(C)]
#[derive(Clone, Copy)]
pub struct Bitmap {
    pub id: u64,
    pub width: u64,
    pub length: u64,
    pub stamped: u64,
    pub stamp_high: u64,
    pub stamp_low: u64,
}

// struct saratoga_bitmap_opened.
#[repr(C)]
#[derive(Clone, Copy)]
pub struct BitmapOpenedAnswer {
    pub number: u64,
    pub code: u64,
    pub edge: u64,
    pub complete: u64,
    pub transfer: Bitmap,
}

// struct saratoga_bitmap_recorded: what recording in a table answers, and the record where it was accepted.
#[repr(C)]
#[derive(Clone, Copy)]
pub struct BitmapRecordedAnswer {
    pub answer: RecordedAnswer,
    pub transfer: Bitmap,
}

// Any number but 0 says that a timestamp is kept.
fn held_from(b: Bitmap) -> Held
    ensures { result ≡ held_from b }
{
    Held {
        key: Key {
            id: b.id,
            width: b.width as usize,
            length: b.length,
        },
        kept: Kept {
            stamped: b.stamped != 0,
            high: b.stamp_high,
            low: b.stamp_low,
        },
    }
}

fn bitmap_of(held: Held) -> Bitmap
    ensures { result ≡ bitmap_of held }
{
    Bitmap {
        id: held.key.id,
        width: held.key.width as u64,
        length: held.key.length,
        stamped: refusals::bit_of(held.kept.stamped),
        stamp_high: held.kept.high,
        stamp_low: held.kept.low,
    }
}

// The record of no transfer, which comes with a refusal.
fn no_bitmap() -> Bitmap
    ensures { result ≡ no_bitmap }
{
    Bitmap {
        id: 0,
        width: 0,
        length: 0,
        stamped: 0,
        stamp_high: 0,
        stamp_low: 0,
    }
}

fn bitmap_opened_answer(a: Result<Opening, Refusal>) -> BitmapOpenedAnswer
    ensures { result ≡ bitmap_opened_answer a }
{
    match a {
        Ok(x) => BitmapOpenedAnswer {
            number: 0,
            code: 0,
            edge: x.reached.edge,
            complete: refusals::bit_of(x.reached.complete),
            transfer: bitmap_of(x.held),
        },
        Err(refusal) => BitmapOpenedAnswer {
            number: refusal.number,
            code: refusal.code,
            edge: 0,
            complete: 0,
            transfer: no_bitmap(),
        },
    }
}

fn bitmap_recorded_answer(r: Recording) -> BitmapRecordedAnswer
    ensures { result ≡ bitmap_recorded_answer r.held r.told }
{
    BitmapRecordedAnswer {
        answer: answers::recorded_answer(r.told),
        transfer: bitmap_of(r.held),
    }
}

pub fn open(marks: &mut [u8], packet: &[u8]) -> BitmapOpenedAnswer
    ensures answer { result ≡ bitmap_opened_answer (open_marks marks.old packet.now).answer }
    ensures marks { marks.new ≡ (open_marks marks.old packet.now).marks }
{
    bitmap_opened_answer(bitmap_open::open(marks, packet))
}

pub fn record(b: Bitmap, marks: &mut [u8], packet: &[u8]) -> BitmapRecordedAnswer
    ensures answer { result ≡ bitmap_recorded_answer (record_held (held_from b) marks.old packet.now)
        (record_marks (key_from b) marks.old packet.now).answer }
    ensures marks { marks.new ≡ (record_marks (key_from b) marks.old packet.now).marks }
{
    bitmap_recorded_answer(bitmap_record::record(held_from(b), marks, packet))
}

pub fn write_status(
    b: Bitmap,
    marks: &[u8],
    skip: u64,
    unasked: u64,
    out: &mut [u8],
) -> WrittenAnswer
    ensures answer { result ≡ written_answer (marks_written (held_from b) marks.now skip (is_unasked unasked) out.old) }
    ensures buffer { out.new ≡ marks_buffer (held_from b) marks.now skip (is_unasked unasked) out.old }
{
    answers::written_answer(bitmap_status::write_status(
        held_from(b),
        marks,
        skip,
        unasked != 0,
        out,
    ))
}
