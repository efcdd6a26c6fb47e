// A transfer taken out of a lent area: each later one moves down by a place. Used places alone are read and written.
#![tactic(auto)]

ghost use Rattle.std.specs.Prelude.{◌≡◌, true, ◌<◌, length};
ghost use Rattle.area.specs.Places.{read_table, remove_at};
ghost use Rattle.area.specs.Judge.{judged};
ghost use Rattle.area.specs.Stored.{stored_in};

// The transfer at a place taken out: each later one moves down by a place.
pub fn remove_at(area: &mut [u8], place: usize)
    requires { (judged area.old ≡ true) × (place < length (read_table area.old)) }
    ensures { area.new ≡ stored_in area.old (remove_at place (read_table area.old)) }
{
    let n = area_at::open_count(area) as usize;
    for q in place..n - 1 {
        area_move::copy_transfer(area, q + 1, q);
    }
    words::put_word(area, 0, (n - 1) as u64);
}
