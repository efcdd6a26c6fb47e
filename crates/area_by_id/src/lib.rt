// One transfer of a lent area by its Id: how it stands, and its holes, without a STATUS.
#![tactic(auto)]

ghost use Rattle.std.specs.Prelude.{◌≡◌};
ghost use Rattle.area_by_id.specs.ById.{found_area, hole_area};

use area_listing::Listing;
use refusals::{Fault, Refusal};
use runs::Hole;

// The open transfer with this Id.
pub fn find(area: &[u8], id: u64) -> Result<Listing, Refusal>
    ensures { result ≡ found_area area.now id }
{
    if !area_judge::judge(area) {
        return Err(Fault::NoTable.into());
    }
    let place = area_find::find_place(area, id);
    if !place.open {
        return Err(Fault::NotOpen.into());
    }
    Ok(area_listing::listing_at(area, place.at))
}

// Hole `index` of its received set, from the lowest.
pub fn transfer_hole(area: &[u8], id: u64, index: u64) -> Result<Hole, Refusal>
    ensures { result ≡ hole_area area.now id index }
{
    if !area_judge::judge(area) {
        return Err(Fault::NoTable.into());
    }
    let kept = area_find::find_place(area, id);
    if !kept.open {
        return Err(Fault::NotOpen.into());
    }
    let rows = area_at::rows_at(area, kept.at);
    let holes = run_rows::hole_count(area, rows);
    if holes as u64 <= index {
        return Err(Fault::NoSuchHole.into());
    }
    Ok(run_rows::hole_at(area, rows, index as usize))
}
