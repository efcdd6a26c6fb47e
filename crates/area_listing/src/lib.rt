// What is open in a lent area, one transfer after the other, read where it is.
#![tactic(auto)]

ghost use Rattle.std.specs.Prelude.{◌≡◌};
ghost use Rattle.area.specs.Places.{transfer_at};
ghost use Rattle.area.specs.Used.{UsedPlace};
ghost use Rattle.area_listing.specs.Listing.{listing_of, listed_area};

use refusals::{Fault, Refusal};

// A transfer that is open. `width` counts octets, `runs` its runs, and `received` the offsets that they have; `stamped` tells whether it
// keeps a timestamp.
#[derive(Clone, Copy)]
pub struct Listing {
    pub id: u64,
    pub width: u64,
    pub length: u64,
    pub edge: u64,
    pub complete: bool,
    pub runs: usize,
    pub received: u64,
    pub stamped: bool,
}

// The transfer at place i.
pub fn listing_at(area: &[u8], i: usize) -> Listing
    requires { UsedPlace area.now i }
    ensures { result ≡ listing_of (transfer_at area.now i) }
{
    let key = area_at::key_at(area, i);
    let rows = area_at::rows_at(area, i);
    let edge = run_rows::edge_of(area, rows);
    let complete = run_rows::is_complete(area, rows, key.length);
    let received = run_rows::received_of(area, rows);
    let stamped = area_at::head(area, i, area::STAMPED) == 1;
    Listing {
        id: key.id,
        width: key.width as u64,
        length: key.length,
        edge,
        complete,
        runs: rows.count,
        received,
        stamped,
    }
}

// Lists what is open, one transfer a call, in rising order of Id.
pub fn transfer(area: &[u8], index: u64) -> Result<Listing, Refusal>
    ensures { result ≡ listed_area area.now index }
{
    if !area_judge::judge(area) {
        return Err(Fault::NoTable.into());
    }
    if area_at::open_count(area) <= index {
        return Err(Fault::NotOpen.into());
    }
    Ok(listing_at(area, index as usize))
}
