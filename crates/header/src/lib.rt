// The first word of a packet, what all packets begin with, and a descriptor at a place: definitions and laws. The code is in first_word,
// descriptors and packet_start.
#![tactic(auto)]

// The fields of a packet's first word. What some of them mean depends on the packet's type.
#[derive(Clone, Copy)]
pub struct Head {
    pub mark: u64,
    pub ptype: u64,
    pub flags: u64,
    pub width: u64,
    pub kind: u64,
    pub stamped: u64,
    pub partial: u64,
    pub wanted: u64,
    pub eod: u64,
    pub words: u64,
    pub sum: u64,
    pub status: u64,
}
