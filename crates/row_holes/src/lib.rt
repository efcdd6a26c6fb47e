// The holes of one transfer whose runs are kept in two rows of words, written one after the other.
#![tactic(auto)]

ghost use Rattle.std.specs.Prelude.{◌≡◌, ◌+◌, ◌*◌, ◌≤◌, length, take, drop};
ghost use Rattle.octets.specs.Numbers.{Width};
ghost use Rattle.octets.specs.Put.{put};
ghost use Rattle.runs.specs.Holes.{holes};
ghost use Rattle.run_rows.specs.Rows.{runs_in, RowsFine};
ghost use Rattle.hole_list.specs.Pairs.{pairs};

use run_rows::Rows;

// The `count` holes from hole `first` on, one after the other, from octet `from` on.
fn put_pairs(
    buf: &[u8],
    rows: Rows,
    width: usize,
    first: usize,
    count: usize,
    out: &mut [u8],
    from: usize,
)
    requires { RowsFine buf.now rows × (first + count ≤ length (holes (runs_in buf.now rows)))
        × (from + 2 * width * count ≤ length out.old) }
    ensures { out.new
        ≡ put from (pairs width (take count (drop first (holes (runs_in buf.now rows))))) out.old }
{
    let mut at = from;
    for k in 0..count {
        let h = run_rows::hole_at(buf, rows, first + k);
        hole_list::put_hole(out, at, width, h);
        at += 2 * width;
    }
}

// The same. Each width is a literal, for which the compiler makes one store of each number.
pub fn put_holes(
    buf: &[u8],
    rows: Rows,
    width: usize,
    first: usize,
    count: usize,
    out: &mut [u8],
    from: usize,
)
    requires { Width width × RowsFine buf.now rows × (first + count ≤ length (holes (runs_in buf.now rows)))
        × (from + 2 * width * count ≤ length out.old) }
    ensures { out.new
        ≡ put from (pairs width (take count (drop first (holes (runs_in buf.now rows))))) out.old }
{
    match width {
        2 => put_pairs(buf, rows, 2, first, count, out, from),
        4 => put_pairs(buf, rows, 4, first, count, out, from),
        8 => put_pairs(buf, rows, 8, first, count, out, from),
        _ => put_pairs(buf, rows, 16, first, count, out, from),
    }
}
