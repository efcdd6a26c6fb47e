// What C is answered of a packet that was read, by its case, and of one hole of a STATUS.
#![tactic(auto)]

ghost use Rattle.std.specs.Prelude.{◌≡◌};
ghost use Rattle.packet_status.specs.Status.{read_hole};
ghost use Rattle.answer_packets.specs.PacketAnswers.{state_number, beacon_packet, metadata_packet, data_packet, success_packet, failure_packet, refused_packet};
ghost use Rattle.answers.specs.Answers.{hole_answer};

use answers::HoleAnswer;
use beacon_flags::Willingness;
use packet_beacon::Beacon;
use packet_data::Data;
use packet_metadata::Metadata;
use packet_status::{FailureStatus, SuccessStatus};
use refusals::Refusal;

// A part of the packet: its place and its length, in octets.
#[repr(C)]
#[derive(Clone, Copy, Default)]
pub struct Part {
    pub at: usize,
    pub len: usize,
}

// What METADATA alone has.
#[repr(C)]
#[derive(Clone, Copy, Default)]
pub struct MetadataPart {
    pub checksum: Part,
    pub properties: u64,
    pub size: u64,
    pub mtime: u64,
    pub ctime: u64,
    pub path: Part,
}

// What DATA alone has.
#[repr(C)]
#[derive(Clone, Copy, Default)]
pub struct DataPart {
    pub offset: u64,
    pub payload: Part,
}

// What STATUS alone has.
#[repr(C)]
#[derive(Clone, Copy, Default)]
pub struct StatusPart {
    pub status: u64,
    pub progress: u64,
    pub in_response_to: u64,
    pub holes_at: usize,
    pub hole_count: usize,
}

// What BEACON alone has.
#[repr(C)]
#[derive(Clone, Copy, Default)]
pub struct BeaconPart {
    pub largest_width: usize,
    pub bundles: u64,
    pub streams: u64,
    pub send: u64,
    pub receive: u64,
    pub free_width: usize,
    pub free_space: u64,
    pub endpoint: Part,
}

// struct saratoga_packet, part by part; `ptype` is its field `type`. Parts of 64-bit fields lie in memory as the fields do.
#[repr(C)]
#[derive(Clone, Copy, Default)]
pub struct PacketAnswer {
    pub number: u64,
    pub code: u64,
    pub ptype: u64,
    pub flags: u64,
    pub id: u64,
    pub width: usize,
    pub timestamp: Part,
    pub metadata: MetadataPart,
    pub data: DataPart,
    pub status: StatusPart,
    pub beacon: BeaconPart,
}

// The number of a state.
fn state_number(w: Willingness) -> u64
    ensures { result ≡ state_number w }
{
    match w {
        Willingness::Cannot => 0,
        Willingness::NotNow => 1,
        Willingness::Willing => 2,
    }
}

fn beacon_part(b: Beacon) -> BeaconPart
    ensures { result ≡ (beacon_packet b).beacon }
{
    BeaconPart {
        largest_width: b.largest,
        bundles: b.bundles,
        streams: b.streams,
        send: state_number(b.send),
        receive: state_number(b.receive),
        free_width: b.width,
        free_space: b.free,
        endpoint: Part {
            at: b.start,
            len: b.length,
        },
    }
}

pub fn beacon_packet(b: Beacon) -> PacketAnswer
    ensures { result ≡ beacon_packet b }
{
    PacketAnswer {
        ptype: 0,
        flags: b.flags,
        beacon: beacon_part(b),
        ..PacketAnswer::default()
    }
}

pub fn metadata_packet(m: Metadata) -> PacketAnswer
    ensures { result ≡ metadata_packet m }
{
    PacketAnswer {
        ptype: 2,
        flags: m.flags,
        id: m.id,
        width: m.width,
        metadata: MetadataPart {
            checksum: Part {
                at: 8,
                len: m.checksum,
            },
            properties: m.entry.properties,
            size: m.entry.size,
            mtime: m.entry.mtime,
            ctime: m.entry.ctime,
            path: Part {
                at: m.entry.path,
                len: m.entry.length,
            },
        },
        ..PacketAnswer::default()
    }
}

pub fn data_packet(d: Data) -> PacketAnswer
    ensures { result ≡ data_packet d }
{
    PacketAnswer {
        ptype: 3,
        flags: d.flags,
        id: d.id,
        width: d.width,
        timestamp: Part {
            at: 8,
            len: d.timestamp,
        },
        data: DataPart {
            offset: d.offset,
            payload: Part {
                at: d.start,
                len: d.length,
            },
        },
        ..PacketAnswer::default()
    }
}

pub fn success_packet(s: SuccessStatus) -> PacketAnswer
    ensures { result ≡ success_packet s }
{
    PacketAnswer {
        ptype: 4,
        flags: s.flags,
        id: s.id,
        width: s.width,
        timestamp: Part {
            at: 8,
            len: s.timestamp,
        },
        status: StatusPart {
            status: 0,
            progress: s.progress,
            in_response_to: s.response,
            holes_at: s.holes,
            hole_count: s.count,
        },
        ..PacketAnswer::default()
    }
}

pub fn failure_packet(f: FailureStatus) -> PacketAnswer
    ensures { result ≡ failure_packet f }
{
    PacketAnswer {
        ptype: 4,
        flags: f.flags,
        id: f.id,
        status: StatusPart {
            status: f.status,
            ..StatusPart::default()
        },
        ..PacketAnswer::default()
    }
}

pub fn refused_packet(refusal: Refusal) -> PacketAnswer
    ensures { result ≡ refused_packet refusal }
{
    PacketAnswer {
        number: refusal.number,
        code: refusal.code,
        ..PacketAnswer::default()
    }
}

pub fn read_hole(packet: &[u8], index: u64) -> HoleAnswer
    ensures { result ≡ hole_answer (read_hole index packet.now) }
{
    answers::hole_answer(status_fields::read_hole(packet, index))
}
