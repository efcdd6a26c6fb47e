// The words of a lent area by their places: where they stand, and what is read from them. docs/AREA.md has the layout.
#![tactic(auto)]

ghost use Rattle.std.specs.Prelude.{◌≡◌, ◌+◌, ◌*◌, ◌≤◌, ◌<◌, length};
ghost use Rattle.words.specs.Words.{word_at};
ghost use Rattle.run_rows.specs.Rows.{runs_in, RowsFit};
ghost use Rattle.transfer.specs.Transfers.{reached};
ghost use Rattle.area.specs.Layout.{transfer_places, head_words, area_octets, head_at, run_at, half_at};
ghost use Rattle.area.specs.Places.{key_at, rows_at};

use run_rows::Rows;
use transfer::{Key, Reached};

// The word of a field of the head at place i.
pub fn head_at(i: usize, f: usize) -> usize
    requires { (i < transfer_places) × (f < head_words) }
    ensures { result ≡ head_at i f }
{
    area::HEADS_AT + (i * area::HEAD_WORDS + f)
}

// The word where the starts of the runs at place i begin, and the word where their stops do.
pub fn starts_at(i: usize) -> usize
    requires { i < transfer_places }
    ensures { result ≡ run_at 0 i 0 }
{
    area::STARTS_AT + i * area::RUNS
}

pub fn stops_at(i: usize) -> usize
    requires { i < transfer_places }
    ensures { result ≡ run_at 1 i 0 }
{
    area::STOPS_AT + i * area::RUNS
}

// The word where the octets of the timestamp at place i begin.
pub fn stamp_at(i: usize) -> usize
    requires { i < transfer_places }
    ensures { result ≡ half_at i 0 }
{
    area::STAMPS_AT + i * area::STAMP_WORDS
}

// A field of the head at place i.
pub fn head(area: &[u8], i: usize, f: usize) -> u64
    requires { (area_octets ≤ length area.now) × (i < transfer_places) × (f < head_words) }
    ensures { result ≡ word_at area.now (head_at i f) }
{
    words::word(area, head_at(i, f))
}

// The number of open transfers.
pub fn open_count(area: &[u8]) -> u64
    requires { area_octets ≤ length area.now }
    ensures { result ≡ word_at area.now 0 }
{
    words::word(area, 0)
}

// The key of the transfer at place i.
pub fn key_at(area: &[u8], i: usize) -> Key
    requires { (area_octets ≤ length area.now) × (i < transfer_places) }
    ensures { result ≡ key_at area.now i }
{
    Key {
        id: head(area, i, area::ID),
        width: head(area, i, area::WIDTH) as usize,
        length: head(area, i, area::LENGTH),
    }
}

// Where the runs at place i are kept.
pub fn rows_at(area: &[u8], i: usize) -> Rows
    requires { (area_octets ≤ length area.now) × (i < transfer_places) }
    ensures { result ≡ rows_at area.now i }
{
    Rows {
        starts: starts_at(i),
        stops: stops_at(i),
        count: head(area, i, area::RUN_COUNT) as usize,
    }
}

// How far a transfer has come whose runs stand in these rows, and whose key is given.
pub fn reached_in(area: &[u8], rows: Rows, key: Key) -> Reached
    requires { RowsFit area.now rows }
    ensures { result ≡ reached key (runs_in area.now rows) }
{
    let edge = run_rows::edge_of(area, rows);
    let complete = run_rows::is_complete(area, rows, key.length);
    Reached { edge, complete }
}
