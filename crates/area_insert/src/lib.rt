// A transfer with nothing received put into a lent area: each later one moves up by a place. Used places alone are read and written.
#![tactic(auto)]

ghost use Rattle.std.specs.Prelude.{◌≡◌, true, ◌≤◌, ◌<◌, length};
ghost use Rattle.transfer.specs.Transfers.{empty};
ghost use Rattle.area.specs.Layout.{transfer_places, head_words, area_octets};
ghost use Rattle.area.specs.Places.{read_table, insert_at};
ghost use Rattle.area.specs.Judge.{judged};
ghost use Rattle.area.specs.Stored.{stored_in};
ghost use Rattle.area_move.specs.Moves.{HeadPut};

use transfer::Key;

// The head of a transfer with nothing received and no timestamp, at a place.
fn put_head(area: &mut [u8], place: usize, key: Key)
    requires { (area_octets ≤ length area.old) × (place < transfer_places) }
    ensures { HeadPut area.old area.new place (empty key) head_words }
{
    words::put_word(area, area_at::head_at(place, area::ID), key.id);
    words::put_word(area, area_at::head_at(place, area::WIDTH), key.width as u64);
    words::put_word(area, area_at::head_at(place, area::LENGTH), key.length);
    words::put_word(area, area_at::head_at(place, area::RUN_COUNT), 0);
    words::put_word(area, area_at::head_at(place, area::STAMPED), 0);
}

// A transfer with nothing received put in at a place: the one there and each later one move up by a place.
pub fn insert_at(area: &mut [u8], place: usize, key: Key)
    requires { (judged area.old ≡ true) × (place ≤ length (read_table area.old)) × (length (read_table area.old) < transfer_places) }
    ensures { area.new ≡ stored_in area.old (insert_at place (empty key) (read_table area.old)) }
{
    let n = area_at::open_count(area) as usize;
    for q in (place..n).rev() {
        area_move::copy_transfer(area, q, q + 1);
    }
    put_head(area, place, key);
    words::put_word(area, 0, (n + 1) as u64);
}
