// Where an Id is kept in a lent area that holds a table.
#![tactic(auto)]

ghost use Rattle.std.specs.Prelude.{◌≡◌, true, ◌+◌, ◌<◌};
ghost use Rattle.area.specs.Places.{read_table, place_in};
ghost use Rattle.area.specs.Judge.{judged};

use area::Place;

// Where an Id is kept, or would be put: the Ids rise.
pub fn find_place(area: &[u8], id: u64) -> Place
    requires { judged area.now ≡ true }
    ensures { result ≡ place_in id (read_table area.now) }
{
    let n = area_at::open_count(area) as usize;
    for i in 0..n {
        let here = area_at::head(area, i, area::ID);
        if id <= here {
            return Place {
                at: i,
                open: here == id,
            };
        }
    }
    Place { at: n, open: false }
}
