// DATA recorded in a lent area, in place: what is done is decided first, the area only read, and then applied.
#![tactic(auto)]

ghost use Rattle.std.specs.Prelude.{◌≡◌};
ghost use Rattle.area.specs.Operations.{record_area};

use refusals::Refusal;
use transfer::Receipt;

// A packet that has to be DATA, recorded in a lent area: its offsets, and the timestamp that it brings.
pub fn record(area: &mut [u8], packet: &[u8]) -> Result<Receipt, Refusal>
    ensures { (result ≡ (record_area area.old packet.now).answer)
        × (area.new ≡ (record_area area.old packet.now).area) }
{
    let held = area_judge::judge(area);
    area_locate::unread(held, packet)?;
    let d = packet_data::data_fields(packet);
    let t = area_locate::locate(area, d)?;
    let c = area_join::cut(area, t)?;
    let s = area_join::join(area, t, c);
    area_splice::put_runs(area, t.place, c.count, c.i, c.j, s.lo, s.hi);
    area_splice::keep_stamp(area, t.place, packet, d.timestamp);
    Ok(area_join::receipt(c, s))
}

// What `record` would answer.
pub fn try_record(area: &[u8], packet: &[u8]) -> Result<Receipt, Refusal>
    ensures { result ≡ (record_area area.now packet.now).answer }
{
    let holds = area_judge::judge(area);
    area_locate::unread(holds, packet)?;
    let d = packet_data::data_fields(packet);
    let target = area_locate::locate(area, d)?;
    let found = area_join::cut(area, target)?;
    let s = area_join::join(area, target, found);
    Ok(area_join::receipt(found, s))
}
