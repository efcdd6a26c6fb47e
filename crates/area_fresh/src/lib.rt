// Making a table fresh in a lent area that is long enough.
#![tactic(auto)]

ghost use Rattle.std.specs.Prelude.{◌≡◌, ◌+◌, ◌*◌, ◌≤◌, length};
ghost use Rattle.area.specs.Operations.{fresh_area};
ghost use Rattle.area_fresh.specs.Fresh.{no_numbers, WordsPut};

use refusals::{Fault, Refusal};

// The numbers of all heads, and those of all timestamps.
const HEADS: usize = area::TRANSFERS * area::HEAD_WORDS;

const STAMPS: usize = area::TRANSFERS * area::STAMP_WORDS;

// The numbers of a table, in the order of the layout.
#[derive(Clone, Copy)]
struct Numbers {
    count: u64,
    heads: [u64; HEADS],
    starts: [u64; 1024],
    stops: [u64; 1024],
    stamps: [u64; STAMPS],
}

// Those of a table with no transfer.
fn no_numbers() -> Numbers
    ensures { result ≡ no_numbers }
{
    Numbers {
        count: 0,
        heads: [0; HEADS],
        starts: [0; 1024],
        stops: [0; 1024],
        stamps: [0; STAMPS],
    }
}

// The words ws from word k on.
fn put_words(area: &mut [u8], k: usize, ws: &[u64])
    requires { (k + length ws.now) * 8 ≤ length area.old }
    ensures { WordsPut area.old area.new k ws.now (length ws.now) }
{
    for i in 0..ws.len() {
        words::put_word(area, k + i, ws[i]);
    }
}

// A table with no transfer, stored whole in an area that is long enough.
pub fn fresh(area: &mut [u8]) -> Result<(), Refusal>
    ensures { (result ≡ (fresh_area area.old).answer) × (area.new ≡ (fresh_area area.old).area) }
{
    if area.len() < area::AREA_OCTETS {
        return Err(Fault::NoRoom.into());
    }
    let n = no_numbers();
    words::put_word(area, 0, n.count);
    put_words(area, area_at::head_at(0, area::ID), &n.heads);
    put_words(area, area_at::starts_at(0), &n.starts);
    put_words(area, area_at::stops_at(0), &n.stops);
    put_words(area, area_at::stamp_at(0), &n.stamps);
    Ok(())
}
