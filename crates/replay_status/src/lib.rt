// STATUS that is written, or is to be sent, as a line: the octets that are left in a lent buffer.
#![tactic(auto)]

ghost use Rattle.std.specs.Prelude.{◌≤◌, length};
ghost use Rattle.text.specs.Added.{Added};
ghost use Rattle.replay_status.specs.StatusLines.{failure_sent, wanted_sent, written_line, status_lines};

use packet_data::Data;
use replay_answers::{put_sent, put_written};
use replay_fields::within;

// The failure STATUS to send for the packet p; no line where the code is 0 or the packet has no Id.
pub fn put_failure_sent(
    out: &mut [u8],
    at: usize,
    number: u64,
    p: &[u8],
    code: u64,
    lent: &mut [u8],
) -> usize
    requires { at ≤ length out.old }
    ensures { Added out.old at (failure_sent number p.now code lent.old) out.new result }
{
    if code == 0 {
        return at;
    }
    if p.len() < 8 {
        return at;
    }
    let h = first_word::split(first_word::word(p));
    if h.ptype == 0 {
        return at;
    }
    let w = failure_status::write_failure(lent, first_word::id(p), code);
    put_sent(out, at, number, w, lent)
}

// The STATUS to send where DATA d wants one.
pub fn put_wanted_sent(
    out: &mut [u8],
    at: usize,
    number: u64,
    area: &[u8],
    d: Data,
    lent: &mut [u8],
) -> usize
    requires { at ≤ length out.old }
    ensures { Added out.old at (wanted_sent number area.now d lent.old) out.new result }
{
    if d.wanted == 0 {
        return at;
    }
    let w = area_status::write_status(area, d.id, 0, false, lent);
    put_sent(out, at, number, w, lent)
}

// Writes STATUS into `lent`.
fn write(
    area: &[u8],
    number: u64,
    id: u64,
    skip: u64,
    unasked: bool,
    lent: &mut [u8],
    out: &mut [u8],
) -> usize
    ensures { Added out.old 0 (written_line number area.now id skip unasked lent.old) out.new result }
{
    let w = area_status::write_status(area, id, skip, unasked, lent);
    put_written(out, 0, number, w, lent)
}

// `S`: writes STATUS. The body is Id, k, unasked and room, of 4, 8, 1 and 4 octets.
pub fn status(area: &[u8], number: u64, body: &[u8], lent: &mut [u8], out: &mut [u8]) -> usize
    ensures { Added out.old 0 (status_lines number body.now area.now lent.old) out.new result }
{
    if body.len() != 17 {
        return replay_lines::put_bad_length(out, 0, number);
    }
    let id = octets_read::read_four(body, 0);
    let skip = octets_read::read_eight(body, 4);
    let unasked = body[12] != 0;
    let room = within(octets_read::read_four(body, 13), lent.len());
    write(area, number, id, skip, unasked, &mut lent[..room], out)
}
