// Merging as C is answered: an Id of a second area into a first.
#![tactic(auto)]

ghost use Rattle.std.specs.Prelude.{◌≡◌};
ghost use Rattle.area_merge.specs.Merge.{merge_area};
ghost use Rattle.answer_merge.specs.MergeAnswers.{merged_answer};

use refusals::Refusal;
use transfer::Reached;

// struct saratoga_merged.
#[repr(C)]
#[derive(Clone, Copy)]
pub struct MergedAnswer {
    pub number: u64,
    pub code: u64,
    pub edge: u64,
    pub complete: u64,
}

fn merged_answer(a: Result<Reached, Refusal>) -> MergedAnswer
    ensures { result ≡ merged_answer a }
{
    match a {
        Ok(x) => MergedAnswer {
            number: 0,
            code: 0,
            edge: x.edge,
            complete: refusals::bit_of(x.complete),
        },
        Err(refused) => MergedAnswer {
            number: refused.number,
            code: refused.code,
            edge: 0,
            complete: 0,
        },
    }
}

pub fn merge(first: &mut [u8], second: &[u8], id: u64) -> MergedAnswer
    ensures { (result ≡ merged_answer (merge_area first.old second.now id).answer)
        × (first.new ≡ (merge_area first.old second.now id).area) }
{
    merged_answer(area_merge::merge(first, second, id))
}
