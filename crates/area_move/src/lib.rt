// A transfer of a lent area copied from place to place. Used places alone are read and written.
#![tactic(auto)]

ghost use Rattle.std.specs.Prelude.{◌≤◌, ◌<◌, length};
ghost use Rattle.words.specs.Words.{word_at};
ghost use Rattle.area.specs.Layout.{transfer_places, run_places, area_octets, count_field, stamped_field, head_at};
ghost use Rattle.area_move.specs.Blocks.{blocks};
ghost use Rattle.area_move.specs.Moves.{Copied};

// The transfer at place s also at place d: its head, its runs, and its timestamp where it keeps one.
pub fn copy_transfer(area: &mut [u8], s: usize, d: usize)
    requires { (area_octets ≤ length area.old) × (s < transfer_places) × (d < transfer_places)
        × (word_at area.old (head_at s count_field) ≤ run_places) × (word_at area.old (head_at s stamped_field) ≤ 1) }
    ensures { Copied area.old area.new s d blocks }
{
    let runs = area_at::head(area, s, area::RUN_COUNT) as usize;
    let halves = area::STAMP_WORDS * (area_at::head(area, s, area::STAMPED) as usize);
    words::move_words(
        area,
        area_at::head_at(s, area::ID),
        area_at::head_at(d, area::ID),
        area::HEAD_WORDS,
    );
    words::move_words(area, area_at::starts_at(s), area_at::starts_at(d), runs);
    words::move_words(area, area_at::stops_at(s), area_at::stops_at(d), runs);
    words::move_words(area, area_at::stamp_at(s), area_at::stamp_at(d), halves);
}
