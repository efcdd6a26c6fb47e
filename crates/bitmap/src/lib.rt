// The bitmap receiver: one transfer, whose record travels by value, with one mark for each octet in 8,192 lent octets. Here are definitions
// and laws of how marks are judged, and of opening; the code, recording and STATUS stand in crates above.
#![tactic(auto)]

use timestamp::Kept;
use transfer::{Key, Reached};

// The longest transfer: one mark for each of its octets, and one more, which is never set.
pub const LONGEST: u64 = 65535;

// Two rows of 64 words, for the starts and the stops of the runs.
pub const ROW_OCTETS: usize = 2 * marks::RUNS * 8;

// The record of a transfer: its key, and the timestamp that it keeps.
#[derive(Clone, Copy)]
pub struct Held {
    pub key: Key,
    pub kept: Kept,
}

// A transfer that was opened, and how far it has come.
#[derive(Clone, Copy)]
pub struct Opening {
    pub held: Held,
    pub reached: Reached,
}
