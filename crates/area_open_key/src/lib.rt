// An Id opened in a lent area that holds a table, in place.
#![tactic(auto)]

ghost use Rattle.std.specs.Prelude.{◌≡◌, true};
ghost use Rattle.table.specs.Open.{open_key};
ghost use Rattle.area.specs.Places.{read_table};
ghost use Rattle.area.specs.Judge.{judged};
ghost use Rattle.area.specs.Stored.{stored_in};

use refusals::{Fault, Refusal};
use table::Opened;
use transfer::Key;

// Opens an Id, or says what its open transfer answers. A new one is refused with `unwanted` where that is not 0.
// It takes any number, not only those that a fault has, since docs/REFUSALS.md names this function: its callers may be others than ours.
pub fn open_key(area: &mut [u8], unwanted: u64, key: Key) -> Result<Opened, Refusal>
    requires { judged area.old ≡ true }
    ensures { (result ≡ (open_key (read_table area.old) unwanted key).answer)
        × (area.new ≡ stored_in area.old (open_key (read_table area.old) unwanted key).table) }
{
    let place = area_find::find_place(area, key.id);
    if place.open {
        return area_met::met(area, place.at, key);
    }
    if unwanted != 0 {
        return Err(refusals::refuse(unwanted));
    }
    if (area::TRANSFERS as u64) <= area_at::open_count(area) {
        return Err(Fault::TableFull.into());
    }
    area_insert::insert_at(area, place.at, key);
    Ok(Opened::New(transfer_key::reached_new(key)))
}
