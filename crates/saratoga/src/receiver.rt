// The transfer table in a lent area: made fresh, opened, recorded, merged with another, closed, its STATUS written, listed, and looked up by Id.
ghost use Rattle.std.specs.Prelude.{◌≡◌};
ghost use Rattle.area.specs.Operations.{fresh_area, open_area, record_area, close_area, area_status_written, area_status_buffer};
ghost use Rattle.area_listing.specs.Listing.{listed_area};
ghost use Rattle.area_by_id.specs.ById.{found_area, hole_area};
ghost use Rattle.answers.specs.Answers.{is_unasked, written_answer, hole_answer, recorded_answer};
ghost use Rattle.answer_table.specs.TableAnswers.{done_answer, opened_answer};
ghost use Rattle.answer_listing.specs.ListedAnswers.{listed_answer};
ghost use Rattle.area_merge.specs.Merge.{merge_area};
ghost use Rattle.answer_merge.specs.MergeAnswers.{merged_answer};

use answer_listing::ListedAnswer;
use answer_merge::MergedAnswer;
use answer_table::{DoneAnswer, OpenedAnswer};
use answers::{HoleAnswer, RecordedAnswer, WrittenAnswer};

#[unsafe(no_mangle)]
pub extern "C" fn saratoga_fresh(area: &mut [u8]) -> DoneAnswer
    ensures { (result ≡ done_answer (fresh_area area.old).answer) × (area.new ≡ (fresh_area area.old).area) }
{
    answer_table::fresh(area)
}

#[unsafe(no_mangle)]
pub extern "C" fn saratoga_open(area: &mut [u8], packet: &[u8]) -> OpenedAnswer
    ensures { (result ≡ opened_answer (open_area area.old packet.now).answer)
        × (area.new ≡ (open_area area.old packet.now).area) }
{
    answer_table::open(area, packet)
}

#[unsafe(no_mangle)]
pub extern "C" fn saratoga_record(area: &mut [u8], packet: &[u8]) -> RecordedAnswer
    ensures { (result ≡ recorded_answer (record_area area.old packet.now).answer)
        × (area.new ≡ (record_area area.old packet.now).area) }
{
    answer_table::record(area, packet)
}

#[unsafe(no_mangle)]
pub extern "C" fn saratoga_try_record(area: &[u8], packet: &[u8]) -> RecordedAnswer
    ensures { result ≡ recorded_answer (record_area area.now packet.now).answer }
{
    answer_table::try_record(area, packet)
}

#[unsafe(no_mangle)]
pub extern "C" fn saratoga_merge(first: &mut [u8], second: &[u8], id: u64) -> MergedAnswer
    ensures { (result ≡ merged_answer (merge_area first.old second.now id).answer)
        × (first.new ≡ (merge_area first.old second.now id).area) }
{
    answer_merge::merge(first, second, id)
}

#[unsafe(no_mangle)]
pub extern "C" fn saratoga_close(area: &mut [u8], id: u64) -> DoneAnswer
    ensures { (result ≡ done_answer (close_area area.old id).answer) × (area.new ≡ (close_area area.old id).area) }
{
    answer_table::close(area, id)
}

#[unsafe(no_mangle)]
pub extern "C" fn saratoga_write_status(
    area: &[u8],
    id: u64,
    skip: u64,
    unasked: u64,
    out: &mut [u8],
) -> WrittenAnswer
    ensures { (result ≡ written_answer (area_status_written area.now id skip (is_unasked unasked) out.old))
        × (out.new ≡ area_status_buffer area.now id skip (is_unasked unasked) out.old) }
{
    answer_listing::write_status(area, id, skip, unasked, out)
}

#[unsafe(no_mangle)]
pub extern "C" fn saratoga_transfer(area: &[u8], index: u64) -> ListedAnswer
    ensures { result ≡ listed_answer (listed_area area.now index) }
{
    answer_listing::transfer(area, index)
}

#[unsafe(no_mangle)]
pub extern "C" fn saratoga_find(area: &[u8], id: u64) -> ListedAnswer
    ensures { result ≡ listed_answer (found_area area.now id) }
{
    answer_listing::find(area, id)
}

#[unsafe(no_mangle)]
pub extern "C" fn saratoga_transfer_hole(area: &[u8], id: u64, index: u64) -> HoleAnswer
    ensures { result ≡ hole_answer (hole_area area.now id index) }
{
    answer_listing::transfer_hole(area, id, index)
}
