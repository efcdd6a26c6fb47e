// What a link program does with a packet off the link: METADATA opens, DATA is recorded, STATUS and BEACON are read, and
// what is to be sent is a second line.
#![tactic(auto)]

ghost use Rattle.std.specs.Prelude.{◌≡◌, ◌≤◌, length};
ghost use Rattle.area.specs.Operations.{open_area, record_area};
ghost use Rattle.packet.specs.Read.{read_packet};
ghost use Rattle.text.specs.Added.{Added};
ghost use Rattle.replay_deliver.specs.Deliver.{refusal_lines, opened_code, opened_lines, recorded_sent, recorded_lines, deliver_lines, deliver_area};

use packet::Packet;
use packet_data::Data;
use packet_metadata::Metadata;
use refusals::Refusal;
use replay_answers::{put_opening, put_recording};
use replay_status::{put_failure_sent, put_wanted_sent};
use table::Opened;
use transfer::Receipt;

// A refusal of the packet p, and the failure STATUS to send for it.
fn put_refusal(
    out: &mut [u8],
    at: usize,
    number: u64,
    p: &[u8],
    x: Refusal,
    lent: &mut [u8],
) -> usize
    requires { at ≤ length out.old }
    ensures { Added out.old at (refusal_lines number p.now x lent.old) out.new result }
{
    let next = replay_lines::put_refused(out, at, number, x);
    put_failure_sent(out, next, number, p, x.code, lent)
}

// The code of a refusal to open, and 0 where it was accepted.
fn opened_code(a: Result<Opened, Refusal>) -> u64
    ensures { result ≡ opened_code a }
{
    match a {
        Ok(Opened::New(_)) => 0,
        Ok(Opened::AlreadyOpen(_)) => 0,
        Err(x) => x.code,
    }
}

// What opening by METADATA m, read from p, answered, and what is to be sent.
fn put_opened(
    out: &mut [u8],
    at: usize,
    number: u64,
    p: &[u8],
    m: Metadata,
    a: Result<Opened, Refusal>,
    lent: &mut [u8],
) -> usize
    requires { at ≤ length out.old }
    ensures { Added out.old at (opened_lines number p.now m a lent.old) out.new result }
{
    let next = put_opening(out, at, number, m, a);
    put_failure_sent(out, next, number, p, opened_code(a), lent)
}

// What is to be sent where recording DATA d, read from p, answered a.
fn put_recorded_sent(
    out: &mut [u8],
    at: usize,
    number: u64,
    area: &[u8],
    p: &[u8],
    d: Data,
    a: Result<Receipt, Refusal>,
    lent: &mut [u8],
) -> usize
    requires { at ≤ length out.old }
    ensures { Added out.old at (recorded_sent number p.now d a area.now lent.old) out.new result }
{
    match a {
        Ok(_) => put_wanted_sent(out, at, number, area, d, lent),
        Err(x) => put_failure_sent(out, at, number, p, x.code, lent),
    }
}

// What recording DATA d, read from p, answered, and what is to be sent.
fn put_recorded(
    out: &mut [u8],
    at: usize,
    number: u64,
    area: &[u8],
    p: &[u8],
    d: Data,
    a: Result<Receipt, Refusal>,
    lent: &mut [u8],
) -> usize
    requires { at ≤ length out.old }
    ensures { Added out.old at (recorded_lines number p.now d a area.now lent.old) out.new result }
{
    let next = put_recording(out, at, number, d, a);
    put_recorded_sent(out, next, number, area, p, d, a, lent)
}

// Opens by METADATA m, read from p.
fn open(
    area: &mut [u8],
    number: u64,
    p: &[u8],
    m: Metadata,
    lent: &mut [u8],
    out: &mut [u8],
) -> usize
    ensures { (Added out.old 0 (opened_lines number p.now m (open_area area.old p.now).answer lent.old) out.new result)
        × (area.new ≡ (open_area area.old p.now).area) }
{
    let a = area_open::open(area, p);
    put_opened(out, 0, number, p, m, a, lent)
}

// Records DATA d, read from p.
fn record(area: &mut [u8], number: u64, p: &[u8], d: Data, lent: &mut [u8], out: &mut [u8]) -> usize
    ensures { (Added out.old 0 (recorded_lines number p.now d (record_area area.old p.now).answer (record_area area.old p.now).area lent.old) out.new result)
        × (area.new ≡ (record_area area.old p.now).area) }
{
    let a = area_record::record(area, p);
    put_recorded(out, 0, number, area, p, d, a, lent)
}

// The packet p, by its type.
pub fn deliver(area: &mut [u8], number: u64, p: &[u8], lent: &mut [u8], out: &mut [u8]) -> usize
    ensures { (Added out.old 0 (deliver_lines number p.now (read_packet p.now) area.old lent.old) out.new result)
        × (area.new ≡ deliver_area p.now (read_packet p.now) area.old) }
{
    let packet = match packet::read_packet(p) {
        Ok(packet) => packet,
        Err(x) => return put_refusal(out, 0, number, p, x, lent),
    };
    match packet {
        Packet::Beacon(b) => replay_beacon::put_beacon(out, 0, number, p, b),
        Packet::Metadata(m) => open(area, number, p, m, lent, out),
        Packet::Data(d) => record(area, number, p, d, lent, out),
        Packet::Success(s) => replay_success::put_success(out, 0, number, p, s),
        Packet::Failure(f) => replay_packets::put_failure(out, 0, number, f),
    }
}
