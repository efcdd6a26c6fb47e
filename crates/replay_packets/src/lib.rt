// The lines of METADATA, of DATA and of a failure STATUS that was read. Each starts with the number of its record.
#![tactic(auto)]

ghost use Rattle.std.specs.Prelude.{◌≤◌, length};
ghost use Rattle.text.specs.Added.{Added};
ghost use Rattle.replay_packets.specs.PacketLines.{head_text, entry_text, metadata_line, data_line, failure_line};

use directory_entry::Entry;
use packet_data::Data;
use packet_metadata::Metadata;
use packet_status::FailureStatus;
use replay_fields::{bits_of, part, put_field, put_number, put_octets};

// How the line of a packet that was read begins: a name with its Id, the flags and the width.
pub fn put_head(
    out: &mut [u8],
    at: usize,
    number: u64,
    name: &[u8],
    id: u64,
    flags: u64,
    width: usize,
) -> usize
    requires { at ≤ length out.old }
    ensures { Added out.old at (head_text number name.now id flags width) out.new result }
{
    let a = text::put_decimal(out, at, number);
    let b = put_field(out, a, name, id);
    let c = put_number(out, b, b" flags=", 3, flags);
    put_field(out, c, b" width=", bits_of(width))
}

// The directory entry e of the packet p.
fn put_entry(out: &mut [u8], at: usize, p: &[u8], e: Entry) -> usize
    requires { at ≤ length out.old }
    ensures { Added out.old at (entry_text p.now e) out.new result }
{
    let a = put_number(out, at, b" properties=", 2, e.properties);
    let b = put_field(out, a, b" size=", e.size);
    let c = put_field(out, b, b" mtime=", e.mtime);
    let d = put_field(out, c, b" ctime=", e.ctime);
    put_octets(out, d, b" path=", part(p, e.path, e.length))
}

// METADATA m read from the packet p.
pub fn put_metadata(out: &mut [u8], at: usize, number: u64, p: &[u8], m: Metadata) -> usize
    requires { at ≤ length out.old }
    ensures { Added out.old at (metadata_line number p.now m) out.new result }
{
    let a = put_head(out, at, number, b" metadata id=", m.id, m.flags, m.width);
    let b = put_octets(out, a, b" checksum=", part(p, 8, m.checksum));
    let c = put_entry(out, b, p, m.entry);
    text::push(out, c, 10)
}

// DATA d read from the packet p.
pub fn put_data(out: &mut [u8], at: usize, number: u64, p: &[u8], d: Data) -> usize
    requires { at ≤ length out.old }
    ensures { Added out.old at (data_line number p.now d) out.new result }
{
    let size = packet_data::payload(p).len();
    let a = put_head(out, at, number, b" data id=", d.id, d.flags, d.width);
    let b = put_octets(out, a, b" timestamp=", part(p, 8, d.timestamp));
    let c = put_field(out, b, b" offset=", d.offset);
    let e = put_field(out, c, b" length=", size as u64);
    text::push(out, e, 10)
}

// A failure STATUS.
pub fn put_failure(out: &mut [u8], at: usize, number: u64, f: FailureStatus) -> usize
    requires { at ≤ length out.old }
    ensures { Added out.old at (failure_line number f) out.new result }
{
    let a = text::put_decimal(out, at, number);
    let b = put_field(out, a, b" failure id=", f.id);
    let c = put_field(out, b, b" status=", f.status);
    let d = put_number(out, c, b" flags=", 3, f.flags);
    text::push(out, d, 10)
}
