// Closing in a lent area: 22 before all, and the change in place.
#![tactic(auto)]

ghost use Rattle.std.specs.Prelude.{◌≡◌};
ghost use Rattle.area.specs.Operations.{close_area};

use refusals::{Fault, Refusal};

// Closes an Id; its place is used again.
pub fn close(area: &mut [u8], id: u64) -> Result<(), Refusal>
    ensures { (result ≡ (close_area area.old id).answer) × (area.new ≡ (close_area area.old id).area) }
{
    if area_judge::judge(area) {
        let kept = area_find::find_place(area, id);
        if kept.open {
            area_remove::remove_at(area, kept.at);
            return Ok(());
        }
        return Err(Fault::NotOpen.into());
    }
    Err(Fault::NoTable.into())
}
