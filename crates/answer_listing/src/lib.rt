// What is told of the transfer table in a lent area: its transfers listed and looked up by Id, their holes, and their STATUS.
#![tactic(auto)]

ghost use Rattle.std.specs.Prelude.{◌≡◌};
ghost use Rattle.area.specs.Operations.{area_status_written, area_status_buffer};
ghost use Rattle.area_listing.specs.Listing.{listed_area};
ghost use Rattle.area_by_id.specs.ById.{found_area, hole_area};
ghost use Rattle.answers.specs.Answers.{is_unasked, written_answer, hole_answer};
ghost use Rattle.answer_listing.specs.ListedAnswers.{listed_answer};

use answers::{HoleAnswer, WrittenAnswer};
use area_listing::Listing;
use refusals::Refusal;

// struct saratoga_listed.
#[repr(C)]
#[derive(Clone, Copy)]
pub struct ListedAnswer {
    pub number: u64,
    pub code: u64,
    pub id: u64,
    pub width: u64,
    pub length: u64,
    pub edge: u64,
    pub complete: u64,
    pub runs: usize,
    pub received: u64,
    pub stamped: u64,
}

fn listed_answer(a: Result<Listing, Refusal>) -> ListedAnswer
    ensures { result ≡ listed_answer a }
{
    match a {
        Ok(x) => ListedAnswer {
            number: 0,
            code: 0,
            id: x.id,
            width: x.width,
            length: x.length,
            edge: x.edge,
            complete: refusals::bit_of(x.complete),
            runs: x.runs,
            received: x.received,
            stamped: refusals::bit_of(x.stamped),
        },
        Err(r) => ListedAnswer {
            number: r.number,
            code: r.code,
            id: 0,
            width: 0,
            length: 0,
            edge: 0,
            complete: 0,
            runs: 0,
            received: 0,
            stamped: 0,
        },
    }
}

pub fn write_status(area: &[u8], id: u64, skip: u64, unasked: u64, out: &mut [u8]) -> WrittenAnswer
    ensures { (result ≡ written_answer (area_status_written area.now id skip (is_unasked unasked) out.old))
        × (out.new ≡ area_status_buffer area.now id skip (is_unasked unasked) out.old) }
{
    answers::written_answer(area_status::write_status(area, id, skip, unasked != 0, out))
}

pub fn transfer(area: &[u8], index: u64) -> ListedAnswer
    ensures { result ≡ listed_answer (listed_area area.now index) }
{
    listed_answer(area_listing::transfer(area, index))
}

pub fn find(area: &[u8], id: u64) -> ListedAnswer
    ensures { result ≡ listed_answer (found_area area.now id) }
{
    listed_answer(area_by_id::find(area, id))
}

pub fn transfer_hole(area: &[u8], id: u64, index: u64) -> HoleAnswer
    ensures { result ≡ hole_answer (hole_area area.now id index) }
{
    answers::hole_answer(area_by_id::transfer_hole(area, id, index))
}
