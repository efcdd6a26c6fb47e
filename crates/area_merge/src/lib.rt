// Merging an Id of a second area into a first: 22 for either area before all, and nothing is written before the last refusal is judged.
#![tactic(auto)]

ghost use Rattle.std.specs.Prelude.{◌≡◌, true};
ghost use Rattle.area.specs.Places.{read_table};
ghost use Rattle.area.specs.Judge.{judged};
ghost use Rattle.area.specs.Operations.{leaves};
ghost use Rattle.table_merge.specs.Merge.{merge_table};
ghost use Rattle.area_merge.specs.Merge.{merge_area};

use refusals::{Fault, Refusal};
use transfer::Reached;

// 12 where the Id is not open in the first or not in the second, then 13 and 18, and then the joined runs.
fn merge_tables(area: &mut [u8], other: &[u8], id: u64) -> Result<Reached, Refusal>
    requires { (judged area.old ≡ true) × (judged other.now ≡ true) }
    ensures { (result ≡ (leaves area.old (merge_table (read_table area.old) (read_table other.now) id)).answer)
        × (area.new ≡ (leaves area.old (merge_table (read_table area.old) (read_table other.now) id)).area) }
{
    let place = area_find::find_place(area, id);
    if !place.open {
        return Err(Fault::NotOpen.into());
    }
    let source = area_find::find_place(other, id);
    if !source.open {
        return Err(Fault::NotOpen.into());
    }
    let at = place.at;
    let from = source.at;
    let key = area_at::key_at(area, at);
    table_merge::keys_refusal(key, area_at::key_at(other, from))?;
    area_union::join_places(area, at, key, other, from)
}

// The Id of the second area merged into the first. The second is only read.
pub fn merge(area: &mut [u8], other: &[u8], id: u64) -> Result<Reached, Refusal>
    ensures { (result ≡ (merge_area area.old other.now id).answer)
        × (area.new ≡ (merge_area area.old other.now id).area) }
{
    if area_judge::judge(area) {
        if area_judge::judge(other) {
            return merge_tables(area, other, id);
        }
        return Err(Fault::NoTable.into());
    }
    Err(Fault::NoTable.into())
}
