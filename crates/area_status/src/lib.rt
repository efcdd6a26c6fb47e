// STATUS written from the lent area, read where it is.
#![tactic(auto)]

ghost use Rattle.std.specs.Prelude.{◌≡◌};
ghost use Rattle.timestamp.specs.Timestamps.{kept_octets};
ghost use Rattle.area.specs.Places.{stamp_at};
ghost use Rattle.area.specs.Operations.{area_status_written, area_status_buffer};
ghost use Rattle.area.specs.Used.{UsedPlace};

use refusals::{Fault, Refusal};
use timestamp::Kept;

// The timestamp that the transfer at place i keeps.
fn kept_at(area: &[u8], i: usize) -> Kept
    requires { UsedPlace area.now i }
    ensures { kept_octets result ≡ stamp_at area.now i }
{
    let stamped = area_at::head(area, i, area::STAMPED) == 1;
    timestamp::read_stamp(area, area_at::stamp_at(i) * 8, stamped)
}

// Writes STATUS of an open Id into a lent buffer.
pub fn write_status(
    area: &[u8],
    id: u64,
    skip: u64,
    unasked: bool,
    out: &mut [u8],
) -> Result<usize, Refusal>
    ensures { (result ≡ area_status_written area.now id skip unasked out.old)
        × (out.new ≡ area_status_buffer area.now id skip unasked out.old) }
{
    if !area_judge::judge(area) {
        return Err(Fault::NoTable.into());
    }
    let place = area_find::find_place(area, id);
    if !place.open {
        return Err(Fault::NotOpen.into());
    }
    let at = place.at;
    let key = area_at::key_at(area, at);
    let kept = kept_at(area, at);
    let rows = area_at::rows_at(area, at);
    row_status::write_rows(area, key, kept, rows, skip, unasked, out)
}
