// The bitmap receiver: one transfer, with one mark for each of its octets, and a record that C hands in and gets back.
ghost use Rattle.std.specs.Prelude.{◌≡◌};
ghost use Rattle.bitmap.specs.Open.{open_marks};
ghost use Rattle.bitmap_extend.specs.Record.{record_marks};
ghost use Rattle.bitmap_held.specs.Held.{record_held};
ghost use Rattle.bitmap_status.specs.WriteStatus.{marks_written, marks_buffer};
ghost use Rattle.answers.specs.Answers.{is_unasked, written_answer};
ghost use Rattle.answer_marks.specs.BitmapAnswers.{key_from, held_from, bitmap_opened_answer, bitmap_recorded_answer};

use answer_marks::{Bitmap, BitmapOpenedAnswer, BitmapRecordedAnswer};
use answers::WrittenAnswer;

#[unsafe(no_mangle)]
pub extern "C" fn saratoga_bitmap_open(marks: &mut [u8], packet: &[u8]) -> BitmapOpenedAnswer
    ensures { (result ≡ bitmap_opened_answer (open_marks marks.old packet.now).answer)
        × (marks.new ≡ (open_marks marks.old packet.now).marks) }
{
    answer_marks::open(marks, packet)
}

#[unsafe(no_mangle)]
pub extern "C" fn saratoga_bitmap_record(
    b: Bitmap,
    marks: &mut [u8],
    packet: &[u8],
) -> BitmapRecordedAnswer
    ensures { (result ≡ bitmap_recorded_answer (record_held (held_from b) marks.old packet.now)
        (record_marks (key_from b) marks.old packet.now).answer)
        × (marks.new ≡ (record_marks (key_from b) marks.old packet.now).marks) }
{
    answer_marks::record(b, marks, packet)
}

#[unsafe(no_mangle)]
pub extern "C" fn saratoga_bitmap_status(
    b: Bitmap,
    marks: &[u8],
    skip: u64,
    unasked: u64,
    out: &mut [u8],
) -> WrittenAnswer
    ensures { (result ≡ written_answer (marks_written (held_from b) marks.now skip (is_unasked unasked) out.old))
        × (out.new ≡ marks_buffer (held_from b) marks.now skip (is_unasked unasked) out.old) }
{
    answer_marks::write_status(b, marks, skip, unasked, out)
}
