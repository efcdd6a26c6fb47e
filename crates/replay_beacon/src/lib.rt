// The line of a BEACON.
#![tactic(auto)]

ghost use Rattle.std.specs.Prelude.{◌≤◌, length};
ghost use Rattle.text.specs.Added.{Added};
ghost use Rattle.replay_beacon.specs.BeaconLine.{state_text, flags_text, states_text, free_text, beacon_line};

use beacon_flags::Willingness;
use packet_beacon::Beacon;
use replay_fields::{bits_of, part, put_field, put_number, put_octets};

// The word of a state.
fn put_state(out: &mut [u8], at: usize, w: Willingness) -> usize
    requires { at ≤ length out.old }
    ensures { Added out.old at (state_text w) out.new result }
{
    match w {
        Willingness::Cannot => text::put_text(out, at, b"cannot"),
        Willingness::NotNow => text::put_text(out, at, b"not-now"),
        Willingness::Willing => text::put_text(out, at, b"willing"),
    }
}

// The number of the record, and the flags with a number.
fn put_flags(out: &mut [u8], at: usize, number: u64, b: Beacon) -> usize
    requires { at ≤ length out.old }
    ensures { Added out.old at (flags_text number b) out.new result }
{
    let a = text::put_decimal(out, at, number);
    let c = put_number(out, a, b" beacon flags=", 3, b.flags);
    let d = put_field(out, c, b" largest-width=", bits_of(b.largest));
    let e = put_field(out, d, b" bundles=", b.bundles);
    put_field(out, e, b" streams=", b.streams)
}

// Whether it sends and whether it receives.
fn put_states(out: &mut [u8], at: usize, send: Willingness, receive: Willingness) -> usize
    requires { at ≤ length out.old }
    ensures { Added out.old at (states_text send receive) out.new result }
{
    let a = text::put_text(out, at, b" send=");
    let b = put_state(out, a, send);
    let c = text::put_text(out, b, b" receive=");
    put_state(out, c, receive)
}

// The free space, where there is one.
fn put_free(out: &mut [u8], at: usize, width: usize, free: u64) -> usize
    requires { at ≤ length out.old }
    ensures { Added out.old at (free_text width free) out.new result }
{
    if width == 0 {
        let a = text::put_text(out, at, b" free-width=");
        return text::put_text(out, a, b" free=");
    }
    let b = put_field(out, at, b" free-width=", bits_of(width));
    put_field(out, b, b" free=", free)
}

// BEACON b read from the packet p.
pub fn put_beacon(out: &mut [u8], at: usize, number: u64, p: &[u8], b: Beacon) -> usize
    requires { at ≤ length out.old }
    ensures { Added out.old at (beacon_line number p.now b) out.new result }
{
    let send = b.send;
    let receive = b.receive;
    let a = put_flags(out, at, number, b);
    let c = put_states(out, a, send, receive);
    let d = put_free(out, c, b.width, b.free);
    let e = put_octets(out, d, b" endpoint=", part(p, b.start, b.length));
    text::push(out, e, 10)
}
