// The first word of a packet by shifts and masks, and the Id behind it.
#![tactic(auto)]

ghost use Rattle.std.specs.Prelude.{◌≡◌, ◌<◌, ◌≤◌, ◌^◌, length};
ghost use Rattle.header.specs.FirstWord.{Splits, word_for};
ghost use Rattle.header.specs.Start.{word_of, id_of};

use header::Head;

// Bit b of the word, counted from the highest, is bit 31 - b counted from the lowest.
pub fn split(w: u64) -> Head
    ensures { Splits w result }
{
    Head {
        mark: (w >> 30) & 3,
        ptype: (w >> 24) & 0x3f,
        flags: w & 0xffffff,
        width: (w >> 22) & 3,
        kind: (w >> 20) & 3,
        stamped: (w >> 19) & 1,
        partial: (w >> 17) & 1,
        wanted: (w >> 16) & 1,
        eod: (w >> 15) & 1,
        words: (w >> 4) & 15,
        sum: w & 15,
        status: w & 255,
    }
}

// The word of a packet of type `ptype` with these flags.
pub fn join(ptype: u64, flags: u64) -> u64
    requires { (ptype < 2 ^ 6) × (flags < 2 ^ 24) }
    ensures { result ≡ word_for ptype flags }
{
    (0x40000000 | (ptype << 24)) | flags
}

// The first word of a packet.
pub fn word(p: &[u8]) -> u64
    requires { 4 ≤ length p.now }
    ensures { result ≡ word_of p.now }
{
    octets_read::read_four(p, 0)
}

// The Id of a packet.
pub fn id(p: &[u8]) -> u64
    requires { 8 ≤ length p.now }
    ensures { result ≡ id_of p.now }
{
    octets_read::read_four(p, 4)
}
