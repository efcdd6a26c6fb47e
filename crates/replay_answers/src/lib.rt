// The answer of each operation as a line, by its cases.
#![tactic(auto)]

ghost use Rattle.std.specs.Prelude.{◌≤◌, length};
ghost use Rattle.text.specs.Added.{Added};
ghost use Rattle.replay_answers.specs.AnswerLines.{fresh_text, close_text, opening_text, open_text, recording_text, record_text, read_text, status_text, sent_text};

use packet::Packet;
use packet_data::Data;
use packet_metadata::Metadata;
use refusals::Refusal;
use replay_fields::part;
use table::Opened;
use transfer::Receipt;

// What making a table fresh answered.
pub fn put_fresh(out: &mut [u8], at: usize, number: u64, a: Result<(), Refusal>) -> usize
    requires { at ≤ length out.old }
    ensures { Added out.old at (fresh_text number a) out.new result }
{
    match a {
        Ok(()) => replay_lines::put_plain(out, at, number, b" fresh\n"),
        Err(x) => replay_lines::put_refused(out, at, number, x),
    }
}

// What closing answered.
pub fn put_close(out: &mut [u8], at: usize, number: u64, id: u64, a: Result<(), Refusal>) -> usize
    requires { at ≤ length out.old }
    ensures { Added out.old at (close_text number id a) out.new result }
{
    match a {
        Ok(()) => replay_lines::put_closed(out, at, number, id),
        Err(x) => replay_lines::put_refused(out, at, number, x),
    }
}

// What opening by METADATA m answered.
pub fn put_opening(
    out: &mut [u8],
    at: usize,
    number: u64,
    m: Metadata,
    a: Result<Opened, Refusal>,
) -> usize
    requires { at ≤ length out.old }
    ensures { Added out.old at (opening_text number m a) out.new result }
{
    let opened = match a {
        Ok(opened) => opened,
        Err(x) => return replay_lines::put_refused(out, at, number, x),
    };
    match opened {
        Opened::New(x) => replay_lines::put_opened(out, at, number, m, x, b" new\n"),
        Opened::AlreadyOpen(x) => {
            replay_lines::put_opened(out, at, number, m, x, b" already-open\n")
        }
    }
}

// What opening answered, with what its packet was read as.
pub fn put_open(
    out: &mut [u8],
    at: usize,
    number: u64,
    m: Result<Metadata, Refusal>,
    a: Result<Opened, Refusal>,
) -> usize
    requires { at ≤ length out.old }
    ensures { Added out.old at (open_text number m a) out.new result }
{
    match m {
        Ok(f) => put_opening(out, at, number, f, a),
        Err(x) => replay_lines::put_refused(out, at, number, x),
    }
}

// What recording DATA d answered.
pub fn put_recording(
    out: &mut [u8],
    at: usize,
    number: u64,
    d: Data,
    a: Result<Receipt, Refusal>,
) -> usize
    requires { at ≤ length out.old }
    ensures { Added out.old at (recording_text number d a) out.new result }
{
    match a {
        Ok(x) => replay_lines::put_recorded(out, at, number, d, x),
        Err(x) => replay_lines::put_refused(out, at, number, x),
    }
}

// What recording answered, with what its packet was read as.
pub fn put_record(
    out: &mut [u8],
    at: usize,
    number: u64,
    d: Result<Data, Refusal>,
    a: Result<Receipt, Refusal>,
) -> usize
    requires { at ≤ length out.old }
    ensures { Added out.old at (record_text number d a) out.new result }
{
    match d {
        Ok(f) => put_recording(out, at, number, f, a),
        Err(x) => replay_lines::put_refused(out, at, number, x),
    }
}

// What a packet p was read as.
pub fn put_read(
    out: &mut [u8],
    at: usize,
    number: u64,
    p: &[u8],
    a: Result<Packet, Refusal>,
) -> usize
    requires { at ≤ length out.old }
    ensures { Added out.old at (read_text number p.now a) out.new result }
{
    let packet = match a {
        Ok(packet) => packet,
        Err(x) => return replay_lines::put_refused(out, at, number, x),
    };
    match packet {
        Packet::Beacon(b) => replay_beacon::put_beacon(out, at, number, p, b),
        Packet::Metadata(m) => replay_packets::put_metadata(out, at, number, p, m),
        Packet::Data(d) => replay_packets::put_data(out, at, number, p, d),
        Packet::Success(s) => replay_success::put_success(out, at, number, p, s),
        Packet::Failure(f) => replay_packets::put_failure(out, at, number, f),
    }
}

// What writing STATUS into `lent` answered.
pub fn put_written(
    out: &mut [u8],
    at: usize,
    number: u64,
    w: Result<usize, Refusal>,
    lent: &[u8],
) -> usize
    requires { at ≤ length out.old }
    ensures { Added out.old at (status_text number w lent.now) out.new result }
{
    match w {
        Ok(n) => replay_lines::put_packet(out, at, number, b" status ", part(lent, 0, n)),
        Err(x) => replay_lines::put_refused(out, at, number, x),
    }
}

// The packet to send that was written into `lent`; no line where none was.
pub fn put_sent(
    out: &mut [u8],
    at: usize,
    number: u64,
    w: Result<usize, Refusal>,
    lent: &[u8],
) -> usize
    requires { at ≤ length out.old }
    ensures { Added out.old at (sent_text number w lent.now) out.new result }
{
    match w {
        Ok(n) => replay_lines::put_packet(out, at, number, b" send ", part(lent, 0, n)),
        Err(_) => at,
    }
}
