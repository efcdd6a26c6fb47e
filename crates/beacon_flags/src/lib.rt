// The flags that BEACON alone has.
#![tactic(auto)]

ghost use Rattle.std.specs.Prelude.{◌≡◌};
ghost use Rattle.beacon_flags.specs.Flags.{Splits, free_octets, willingness_of, flags_refusal};
ghost use Rattle.refusals.specs.Faults.{refused};

use refusals::Fault;

// Whether a peer sends, or receives, files.
#[derive(Clone, Copy, Debug, PartialEq, Eq)]
pub enum Willingness {
    Cannot,
    NotNow,
    Willing,
}

// The flags of BEACON that no other packet has. `sending` and `receiving` are pairings of two bits.
#[derive(Clone, Copy)]
pub struct BeaconFlags {
    pub bundles: u64,
    pub streams: u64,
    pub sending: u64,
    pub receiving: u64,
    pub present: u64,
    pub width: u64,
    pub last: u64,
}

// Bit b of the word, counted from the highest, is bit 31 - b counted from the lowest.
pub fn split(w: u64) -> BeaconFlags
    ensures { Splits w result }
{
    BeaconFlags {
        bundles: (w >> 21) & 1,
        streams: (w >> 20) & 1,
        sending: (w >> 18) & 3,
        receiving: (w >> 16) & 3,
        present: (w >> 14) & 1,
        width: (w >> 12) & 3,
        last: w & 255,
    }
}

// The state of a pairing that is not refused.
pub fn state_of(pair: u64) -> Willingness
    ensures { result ≡ willingness_of pair }
{
    match pair {
        0 => Willingness::Cannot,
        2 => Willingness::NotNow,
        _ => Willingness::Willing,
    }
}

// The octets of the free space, by the first word or the flags.
pub fn free_octets(w: u64) -> usize
    ensures { result ≡ free_octets w }
{
    let f = split(w);
    if f.present == 1 {
        return descriptors::octets_of_width(f.width);
    }
    0
}

// Refusal 26 of the first word or the flags.
#[tactic(auto, unfolding(crate::specs::Flags::flags_refusal))]
pub fn flags_refusal(w: u64) -> Result<(), Fault>
    ensures { refused result ≡ flags_refusal w }
{
    let f = split(w);
    if f.sending == 1 || f.receiving == 1 || f.last != 0 {
        return Err(Fault::BeaconFlags);
    }
    Ok(())
}
