// One transfer: its key, how far it has come, and what a packet's fields are refused with: definitions and laws. The received offsets stay
// where they are kept; specs/ says what becomes of them. The code is in transfer_key.
#![tactic(auto)]

// What METADATA opens: an Id, a width (the octets of a descriptor), and the length L.
#[derive(Clone, Copy)]
pub struct Key {
    pub id: u64,
    pub width: usize,
    pub length: u64,
}

// How far a transfer has come: its edge, and whether every octet of its length was received.
#[derive(Clone, Copy)]
pub struct Reached {
    pub edge: u64,
    pub complete: bool,
}

// What an accepted recording tells: how far the transfer has come, how many of its stored runs the packet absorbed, and 1 where it
// brought an offset that was not received, else 0.
#[derive(Clone, Copy)]
pub struct Receipt {
    pub reached: Reached,
    pub absorbed: u64,
    pub adds: u64,
}
