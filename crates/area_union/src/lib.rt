// The runs at a place of one area joined with those at a place of another: nothing is written before the number of joined runs is known.
#![tactic(auto)]

ghost use Rattle.std.specs.Prelude.{◌≡◌, true, ◌+◌, ◌*◌, ◌≤◌, ◌<◌, length};
ghost use Rattle.area.specs.Layout.{transfer_places, run_places, area_octets};
ghost use Rattle.area.specs.Places.{read_table};
ghost use Rattle.area.specs.Judge.{judged};
ghost use Rattle.area_union.specs.Put.{WordsPut, RunsPut};
ghost use Rattle.area_union.specs.Join.{places_joined};

use refusals::{Fault, Refusal};
use run_rows::Rows;
use transfer::{Key, Reached};

// The first n words of ws from word k on.
fn put_row(area: &mut [u8], k: usize, ws: &[u64], n: usize)
    requires { ((k + n) * 8 ≤ length area.old) × (n ≤ length ws.now) }
    ensures { WordsPut area.old area.new k ws.now n }
{
    for i in 0..n {
        words::put_word(area, k + i, ws[i]);
    }
}

// The first n numbers of the arrays become the runs at a place.
fn put_runs(area: &mut [u8], place: usize, starts: &[u64], stops: &[u64], n: usize)
    requires { (area_octets ≤ length area.old) × (place < transfer_places) × (n ≤ run_places) × (n ≤ length starts.now) × (n ≤ length stops.now) }
    ensures { RunsPut area.old area.new place starts.now stops.now n }
{
    put_row(area, area_at::starts_at(place), starts, n);
    put_row(area, area_at::stops_at(place), stops, n);
    words::put_word(area, area_at::head_at(place, area::RUN_COUNT), n as u64);
}

// The runs at a place joined with those at a place of another area, or refused with 16 before anything is written.
pub fn join_places(
    area: &mut [u8],
    at: usize,
    key: Key,
    other: &[u8],
    from: usize,
) -> Result<Reached, Refusal>
    requires { (judged area.old ≡ true) × (at < length (read_table area.old)) × (judged other.now ≡ true) × (from < length (read_table other.now)) }
    ensures { (result ≡ (places_joined area.old at key other.now from).answer)
        × (area.new ≡ (places_joined area.old at key other.now from).area) }
{
    let x = area_at::rows_at(area, at);
    let y = area_at::rows_at(other, from);
    let mut starts: [u64; 64] = [0; 64];
    let mut stops: [u64; 64] = [0; 64];
    let n = row_union::join_rows(area, x, other, y, &mut starts, &mut stops);
    if area::RUNS < n {
        return Err(Fault::TooManyRuns.into());
    }
    put_runs(area, at, &starts, &stops, n);
    let joined = Rows {
        starts: x.starts,
        stops: x.stops,
        count: n,
    };
    Ok(area_at::reached_in(area, joined, key))
}
