// Opening by METADATA in a lent area: 22 before all.
#![tactic(auto)]

ghost use Rattle.std.specs.Prelude.{◌≡◌};
ghost use Rattle.area.specs.Operations.{open_area};
ghost use Rattle.refusals.specs.Faults.{refused};

use refusals::{Fault, Refusal};
use table::Opened;

// The number of what was refused, and 0 where nothing was.
fn refused_number(a: Result<(), Fault>) -> u64
    ensures { result ≡ refused a }
{
    match a {
        Ok(()) => 0,
        Err(fault) => fault.number(),
    }
}

// Opens by a packet that has to be METADATA. That the area holds no table counts before what the packet is.
pub fn open(area: &mut [u8], packet: &[u8]) -> Result<Opened, Refusal>
    ensures { (result ≡ (open_area area.old packet.now).answer)
        × (area.new ≡ (open_area area.old packet.now).area) }
{
    if !area_judge::judge(area) {
        return Err(Fault::NoTable.into());
    }
    packet_metadata::metadata_refusal(packet)?;
    let fields = packet_metadata::metadata_fields(packet);
    let unwanted = refused_number(transfer_key::new_refusal(fields.flags));
    area_open_key::open_key(area, unwanted, transfer_key::key_of(fields))
}
