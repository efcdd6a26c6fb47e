// METADATA of an Id that is open in a lent area: what its transfer answers.
#![tactic(auto)]

ghost use Rattle.std.specs.Prelude.{◌≡◌, true};
ghost use Rattle.table.specs.Open.{open_key};
ghost use Rattle.area.specs.Places.{read_table, KeptAt};
ghost use Rattle.area.specs.Judge.{judged};

use refusals::{Fault, Refusal};
use table::Opened;
use transfer::Key;

// What the open transfer at place i answers to METADATA of its Id: already open, or refusal 18.
pub fn met(area: &[u8], i: usize, key: Key) -> Result<Opened, Refusal>
    requires { (judged area.now ≡ true) × KeptAt key.id (read_table area.now) i }
    ensures { result ≡ (open_key (read_table area.now) 0 key).answer }
{
    let held = area_at::key_at(area, i);
    if held.width != key.width {
        return Err(Fault::OtherFile.into());
    }
    if held.length != key.length {
        return Err(Fault::OtherFile.into());
    }
    let rows = area_at::rows_at(area, i);
    Ok(Opened::AlreadyOpen(area_at::reached_in(area, rows, key)))
}
