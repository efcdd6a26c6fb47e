// Whether a lent area holds a transfer table, judged by its used places alone.
#![tactic(auto)]

ghost use Rattle.std.specs.Prelude.{◌≡◌, ◌+◌, ◌≤◌, ◌<◌, length};
ghost use Rattle.area.specs.Layout.{transfer_places, area_octets};
ghost use Rattle.area.specs.Places.{transfer_at, transfers_from};
ghost use Rattle.area.specs.Judge.{transfer_test, fine_test, judged};

// Whether the transfer at place i is fine by itself.
fn transfer_ok(area: &[u8], i: usize) -> bool
    requires { (area_octets ≤ length area.now) × (i < transfer_places) }
    ensures { result ≡ transfer_test (transfer_at area.now i) }
{
    if 4294967296 <= area_at::head(area, i, area::ID) {
        return false;
    }
    let size = area_at::head(area, i, area::LENGTH);
    if transfer_key::length_ok(area_at::head(area, i, area::WIDTH), size) {
        let rows = area_at::rows_at(area, i);
        if area::RUNS < rows.count {
            return false;
        }
        if run_judge::runs_ok(area, rows, size) {
            return area_at::head(area, i, area::STAMPED) <= 1;
        }
        return false;
    }
    false
}

// Whether the first n transfers are fine, in rising order of their Ids. `least` is the lowest Id that may come next.
fn transfers_ok(area: &[u8], n: usize) -> bool
    requires { (area_octets ≤ length area.now) × (n ≤ transfer_places) }
    ensures { result ≡ fine_test 0 (transfers_from area.now 0 n) }
{
    let mut least: u64 = 0;
    for i in 0..n {
        let id = area_at::head(area, i, area::ID);
        if id < least {
            return false;
        }
        if !transfer_ok(area, i) {
            return false;
        }
        least = id + 1;
    }
    true
}

// Whether the used places of the area hold a table. No is refusal 22.
pub fn judge(area: &[u8]) -> bool
    ensures { result ≡ judged area.now }
{
    if area.len() < area::AREA_OCTETS {
        return false;
    }
    let n = area_at::open_count(area);
    if (area::TRANSFERS as u64) < n {
        return false;
    }
    transfers_ok(area, n as usize)
}
