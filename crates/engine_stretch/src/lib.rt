// How far octets are alike, all received or none, over the rows of a transfer's runs.
#![tactic(auto)]

ghost use Rattle.std.specs.Prelude.{◌≡◌};
ghost use Rattle.run_rows.specs.Rows.{runs_in, RowsFit};
ghost use Rattle.engine_stretch.specs.Stretch.{reach_from};

use run_rows::Rows;

// Whether the octets are received, and the first offset after those that are alike.
#[derive(Clone, Copy)]
pub struct Reach {
    pub received: bool,
    pub stop: u64,
}

// From offset a on, up to b.
pub fn reach_from(area: &[u8], rows: Rows, a: u64, b: u64) -> Reach
    requires { RowsFit area.now rows }
    ensures { result ≡ reach_from (runs_in area.now rows) a b }
{
    for i in 0..rows.count {
        let stop = words::word(area, rows.stops + i);
        if a < stop {
            let start = words::word(area, rows.starts + i);
            if a < start {
                return Reach {
                    received: false,
                    stop: start.min(b),
                };
            }
            return Reach {
                received: true,
                stop: stop.min(b),
            };
        }
    }
    Reach {
        received: false,
        stop: b,
    }
}
