// The set of received offsets of one transfer, kept as its one canonical list of runs.
// specs/ says what insert, edge, holes, progress and complete are, and proofs/ has their laws.
#![tactic(auto)]

// A hole of the received offsets: its first offset, and the first offset after it.
#[derive(Clone, Copy)]
pub struct Hole {
    pub start: u64,
    pub end: u64,
}
