// A stretch of DATA recorded in a lent area, in place, by its fields: what a whole packet is recorded by, of a part of it.
#![tactic(auto)]

ghost use Rattle.std.specs.Prelude.{◌≡◌, true, ◌<◌};
ghost use Rattle.transfer.specs.Record.{stamp_in};
ghost use Rattle.table.specs.Record.{record_data};
ghost use Rattle.area.specs.Places.{read_table};
ghost use Rattle.area.specs.Judge.{judged};
ghost use Rattle.area.specs.Stored.{stored_in};
ghost use Rattle.area_splice.specs.Splice.{Brings};

use packet_data::Data;

// The offsets of d are added, and the timestamp that the packet brings is kept; where the table refuses them, nothing changes.
pub fn record_fields(area: &mut [u8], packet: &[u8], d: Data)
    requires { (judged area.old ≡ true) × (0 < d.length) × Brings packet.now d.timestamp }
    ensures { area.new ≡ stored_in area.old (record_data (read_table area.old) d (stamp_in packet.now d)).table }
{
    let Ok(t) = area_locate::locate(area, d) else {
        return;
    };
    let Ok(c) = area_join::cut(area, t) else {
        return;
    };
    let s = area_join::join(area, t, c);
    area_splice::put_runs(area, t.place, c.count, c.i, c.j, s.lo, s.hi);
    area_splice::keep_stamp(area, t.place, packet, d.timestamp);
}
