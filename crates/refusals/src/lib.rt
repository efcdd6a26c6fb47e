// The refusals: their numbers, the status code of each, and the room for what a writer writes. Not only packets are refused, so this knows of none.
#![tactic(auto)]

ghost use Rattle.std.specs.Prelude.{◌≡◌};
ghost use Rattle.refusals.specs.Refusals.{code_of, refusal_of};
ghost use Rattle.refusals.specs.Faults.{number_of, refused};
ghost use Rattle.refusals.specs.Tests.{bit};
ghost use Rattle.refusals.specs.Writing.{room_refusal};

// Why something is refused; each discriminant is the refusal's number.
#[derive(Clone, Copy, Debug, PartialEq, Eq)]
pub enum Fault {
    Short = 1,
    Long = 2,
    Version = 3,
    OtherType = 4,
    UpperOctets = 5,
    NotAFile = 6,
    ChecksumPair = 7,
    Path = 8,
    Size = 9,
    NoPayload = 10,
    Holes = 11,
    NotOpen = 12,
    OtherWidth = 13,
    PastEnd = 14,
    NotTheEnd = 15,
    TooManyRuns = 16,
    TableFull = 17,
    OtherFile = 18,
    NoSuchHole = 19,
    NoRoom = 20,
    Field = 21,
    NoTable = 22,
    OldChecksum = 23,
    SettingsVersion = 24,
    Settings = 25,
    BeaconFlags = 26,
}

impl Fault {
    pub fn number(self) -> u64
        ensures { result ≡ number_of self }
    {
        self as u64
    }
}

// A refusal as it is told: its number, and the status code to send (0: nothing to send).
#[derive(Clone, Copy)]
pub struct Refusal {
    pub number: u64,
    pub code: u64,
}

impl From<Fault> for Refusal {
    ghost from_gives = { λ fault r. r ≡ refusal_of (number_of fault) };

    fn from(fault: Fault) -> Refusal {
        refuse(fault.number())
    }
}

// A test as a number: 1 where it holds, and else 0.
pub fn bit_of(test: bool) -> u64
    ensures { result ≡ bit test }
{
    test as u64
}

// The status code to send for a refusal.
#[tactic(auto, using(crate::proofs::RefusalLaws::no_code), unfolding(crate::specs::Refusals::code_of))]
fn code_of(number: u64) -> u64
    ensures { result ≡ code_of number }
{
    match number {
        4 => 10,
        5 => 9,
        6 => 1,
        7 => 1,
        8 => 1,
        9 => 9,
        10 => 1,
        12 => 6,
        13 => 9,
        14 => 9,
        15 => 1,
        16 => 3,
        17 => 3,
        18 => 9,
        23 => 1,
        _ => 0,
    }
}

// The refusal with its status code.
pub fn refuse(number: u64) -> Refusal
    ensures { result ≡ refusal_of number }
{
    Refusal {
        number,
        code: code_of(number),
    }
}

// Refusals 2 and 20 of a packet of `size` octets to be written into `room`.
#[tactic(auto, unfolding(crate::specs::Writing::room_refusal))]
pub fn room_refusal(size: usize, room: usize) -> Result<(), Fault>
    ensures { refused result ≡ room_refusal size room }
{
    if 65535 < size {
        return Err(Fault::Long);
    }
    if room < size {
        return Err(Fault::NoRoom);
    }
    Ok(())
}
