// Where a packet's offsets go, the first steps by which a recording is decided: the area is only read. As small functions the compiler
// puts them into both callers (docs/PROVING.md, "Code that runs fast").
#![tactic(auto)]

ghost use Rattle.std.specs.Prelude.{◌≡◌, true, ◌<◌};
ghost use Rattle.area.specs.Judge.{judged};
ghost use Rattle.area_locate.specs.Locate.{unread_as, Located};
ghost use Rattle.refusals.specs.Faults.{refused};

use packet_data::Data;
use refusals::Fault;

// Where the offsets of a packet go: at `place`, whose transfer has `length` octets, from `from` on, with `to` the first after them.
#[derive(Clone, Copy)]
pub struct Target {
    pub place: usize,
    pub length: u64,
    pub from: u64,
    pub to: u64,
}

// 22, which counts before what the packet is, or the reader's refusal.
pub fn unread(held: bool, packet: &[u8]) -> Result<(), Fault>
    ensures { refused result ≡ unread_as held packet.now }
{
    if !held {
        return Err(Fault::NoTable);
    }
    packet_data::data_refusal(packet)
}

// 12, then what the key of its Id says; or where its offsets go.
pub fn locate(area: &[u8], d: Data) -> Result<Target, Fault>
    requires { (judged area.now ≡ true) × (0 < d.length) }
    ensures { Located area.now d result }
{
    let kept = area_find::find_place(area, d.id);
    if !kept.open {
        return Err(Fault::NotOpen);
    }
    let place = kept.at;
    let key = area_at::key_at(area, place);
    transfer_key::key_refusal(key, d)?;
    let from = d.offset;
    let to = from + d.length as u64;
    Ok(Target {
        place,
        length: key.length,
        from,
        to,
    })
}
