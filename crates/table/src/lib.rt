// The transfer table: open transfers by Id. What opening, recording, closing and STATUS answer; specs/ says what each means.
#![tactic(auto)]

use transfer::Reached;

// What opening answers.
#[derive(Clone, Copy)]
pub enum Opened {
    New(Reached),
    AlreadyOpen(Reached),
}
