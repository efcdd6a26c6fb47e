// Runs of a transfer in a lent area, spliced in place: the two rows of its runs where they stand, and their number; nothing is copied out.
// And the timestamp that a packet brings, kept as it came.
#![tactic(auto)]

ghost use Rattle.std.specs.Prelude.{◌≡◌, ◌≤◌, ◌<◌, length, take, drop};
ghost use Rattle.area.specs.Layout.{transfer_places, run_places, area_octets};
ghost use Rattle.area_splice.specs.Splice.{runs_after, spliced_area, Brings, stamped_area};

// Of the n runs at a place, those from i up to j give way to one from `lo` to `hi`.
pub fn put_runs(area: &mut [u8], place: usize, n: usize, i: usize, j: usize, lo: u64, hi: u64)
    requires { (area_octets ≤ length area.old) × (place < transfer_places) × (i ≤ j) × (j ≤ n) × (n ≤ run_places) × (runs_after n i j ≤ run_places) }
    ensures { area.new ≡ spliced_area area.old place n i j lo hi }
{
    words::splice(area, area_at::starts_at(place), n, i, j, lo);
    words::splice(area, area_at::stops_at(place), n, i, j, hi);
    let after = i + 1 + (n - j);
    words::put_word(area, area_at::head_at(place, area::RUN_COUNT), after as u64);
}

// R6.14: the n octets of the timestamp that a packet brings are kept at a place, as they came. A packet without one leaves what is kept.
pub fn keep_stamp(area: &mut [u8], place: usize, packet: &[u8], n: usize)
    requires { (area_octets ≤ length area.old) × (place < transfer_places) × Brings packet.now n }
    ensures { area.new ≡ stamped_area area.old place (take n (drop 8 packet.now)) }
{
    if n == 0 {
        return;
    }
    let first = octets_stored::read_low_eight(packet, 8);
    let last = octets_stored::read_low_eight(packet, 16);
    words::put_word(area, area_at::head_at(place, area::STAMPED), 1);
    let at = area_at::stamp_at(place);
    words::put_word(area, at, first);
    words::put_word(area, at + 1, last);
}
