// The line of a success STATUS that was read, with its holes.
#![tactic(auto)]

ghost use Rattle.std.specs.Prelude.{◌≡◌, ◌≤◌, length};
ghost use Rattle.packet_status.specs.Status.{read_status, read_hole};
ghost use Rattle.text.specs.Added.{Added};
ghost use Rattle.replay_success.specs.SuccessLine.{holes_listed, hole_after, holes_text, success_line};

use packet_status::{Status, SuccessStatus};
use replay_fields::{part, put_field, put_in_list, put_octets};
use replay_packets::put_head;

// How many holes the packet p lists: none, where it is no success STATUS or is refused.
fn hole_count(p: &[u8]) -> usize
    ensures { result ≡ holes_listed (read_status p.now) }
{
    match status_fields::read_status(p) {
        Ok(Status::Success(s)) => s.count,
        Ok(Status::Failure(_)) => 0,
        Err(_) => 0,
    }
}

// One hole of the packet p, which lists so many; no text where it lists none with this index.
fn put_hole(out: &mut [u8], at: usize, p: &[u8], listed: usize, index: usize) -> usize
    requires { (at ≤ length out.old) × (listed ≡ holes_listed (read_status p.now)) }
    ensures { Added out.old at (hole_after index (read_hole index p.now)) out.new result }
{
    if listed <= index {
        return at;
    }
    let h = status_fields::listed_hole(p, index);
    put_in_list(out, at, index as u64, b"-", h.start, h.end)
}

// The first `count` holes of the packet p. It is judged once, and not at every hole.
fn put_holes(out: &mut [u8], at: usize, p: &[u8], count: usize) -> usize
    requires { at ≤ length out.old }
    ensures { Added out.old at (holes_text p.now count) out.new result }
{
    let listed = hole_count(p);
    let mut next = at;
    for i in 0..count {
        next = put_hole(out, next, p, listed, i);
    }
    next
}

// A success STATUS s read from the packet p.
pub fn put_success(out: &mut [u8], at: usize, number: u64, p: &[u8], s: SuccessStatus) -> usize
    requires { at ≤ length out.old }
    ensures { Added out.old at (success_line number p.now s) out.new result }
{
    let a = put_head(out, at, number, b" success id=", s.id, s.flags, s.width);
    let b = put_octets(out, a, b" timestamp=", part(p, 8, s.timestamp));
    let c = put_field(out, b, b" progress=", s.progress);
    let d = put_field(out, c, b" in-response-to=", s.response);
    let e = text::put_text(out, d, b" holes=");
    let f = put_holes(out, e, p, s.count);
    text::push(out, f, 10)
}
