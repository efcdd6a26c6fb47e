// The lent area that holds a transfer table between calls: its layout, definitions and laws. docs/AREA.md has the layout. The code that reads
// it is in area_at, area_judge and area_find.
#![tactic(auto)]

// Places for transfers, and for the runs of each.
pub const TRANSFERS: usize = 16;

pub const RUNS: usize = 64;

// A head: the Id, the width, the length, the number of runs, and 1 where a timestamp is kept, else 0.
pub const HEAD_WORDS: usize = 5;

pub const ID: usize = 0;

pub const WIDTH: usize = 1;

pub const LENGTH: usize = 2;

pub const RUN_COUNT: usize = 3;

pub const STAMPED: usize = 4;

// The words of a timestamp.
pub const STAMP_WORDS: usize = 2;

// Where the heads begin, the starts of all runs, their stops, and the timestamps, in words of 8 octets; and the octets of the layout.
pub const HEADS_AT: usize = 1;

pub const STARTS_AT: usize = HEADS_AT + TRANSFERS * HEAD_WORDS;

pub const STOPS_AT: usize = STARTS_AT + TRANSFERS * RUNS;

pub const STAMPS_AT: usize = STOPS_AT + TRANSFERS * RUNS;

pub const AREA_OCTETS: usize = (STAMPS_AT + TRANSFERS * STAMP_WORDS) * 8;

// Where an Id is kept, or would be put, and whether it is open.
#[derive(Clone, Copy)]
pub struct Place {
    pub at: usize,
    pub open: bool,
}
