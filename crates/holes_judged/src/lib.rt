// Whether the holes of a STATUS are such as it may list.
#![tactic(auto)]

ghost use Rattle.std.specs.Prelude.{◌≡◌, ◌+◌, ◌*◌, ◌<◌, ◌≤◌, length};
ghost use Rattle.octets.specs.Numbers.{Width};
ghost use Rattle.hole_list.specs.HoleList.{holes_of, holes_after, starts_well, holes_well, points_to_last};
ghost use Rattle.hole_list.specs.DescriptorList.{descriptors_refusal};

// Whether the n holes from `from` on, of descriptors of D octets, come one after the other, the first above prev, and none ends above top.
#[tactic(auto, using(hole_list::proofs::DescriptorListLaws::part_within, hole_list::proofs::DescriptorListLaws::start_none, hole_list::proofs::DescriptorListLaws::end_none, hole_list::proofs::HoleListLaws::holes_next))]
fn holes_rise<const D: usize>(s: &[u8], from: usize, n: usize, prev: u64, top: u64) -> bool
    requires { Width D × (from + n * (2 * D) ≤ length s.now) × (descriptors_refusal D (2 * n) from s.now ≡ 0) }
    ensures { result ≡ holes_after prev top (holes_of D n from s.now) }
{
    let mut last = prev;
    for i in 0..n {
        let h = hole_list::hole_at(s, from + i * (2 * D), D);
        if !(last < h.start && h.start < h.end && h.end <= top) {
            return false;
        }
        last = h.end;
    }
    true
}

// The same for every width. Each is a constant, for which the compiler makes one load of each number.
#[tactic(auto, using(octets::proofs::NumberLaws::width_wide))]
fn holes_after(s: &[u8], from: usize, d: usize, n: usize, prev: u64, top: u64) -> bool
    requires { Width d × (from + n * (2 * d) ≤ length s.now) × (descriptors_refusal d (2 * n) from s.now ≡ 0) }
    ensures { result ≡ holes_after prev top (holes_of d n from s.now) }
{
    match d {
        2 => holes_rise::<2>(s, from, n, prev, top),
        4 => holes_rise::<4>(s, from, n, prev, top),
        8 => holes_rise::<8>(s, from, n, prev, top),
        _ => holes_rise::<16>(s, from, n, prev, top),
    }
}

// Whether a list may start so: from Progress on where it is partial, else at Progress.
#[tactic(auto, unfolding(hole_list::specs::HoleList::starts_well))]
fn starts_well(partial: bool, progress: u64, first: u64) -> bool
    ensures { result ≡ starts_well partial progress first }
{
    if partial {
        progress <= first
    } else {
        progress == first
    }
}

// Whether the n holes from `at` on are a list from Progress to In-Response-To.
#[tactic(auto, using(hole_list::proofs::DescriptorListLaws::first_start, hole_list::proofs::DescriptorListLaws::first_end, hole_list::proofs::DescriptorListLaws::later_none, hole_list::proofs::HoleListLaws::less_one, hole_list::proofs::HoleListLaws::holes_step), unfolding(hole_list::specs::HoleList::holes_well))]
pub fn holes_well(
    s: &[u8],
    at: usize,
    d: usize,
    n: usize,
    partial: bool,
    progress: u64,
    top: u64,
) -> bool
    requires { Width d × (at + n * (2 * d) ≤ length s.now) × (descriptors_refusal d (2 * n) at s.now ≡ 0) }
    ensures { result ≡ holes_well partial progress top (holes_of d n at s.now) }
{
    if n == 0 {
        return starts_well(partial, progress, top);
    }
    let h = hole_list::hole_at(s, at, d);
    starts_well(partial, progress, h.start)
        && h.start < h.end
        && h.end <= top
        && holes_after(s, at + 2 * d, d, n - 1, h.end, top)
}

// Whether In-Response-To may be the last octet of a complete transfer, and Progress the offset after it.
#[tactic(auto, using(hole_list::proofs::AcceptedLaws::before_same), unfolding(hole_list::specs::HoleList::points_to_last))]
pub fn points_to_last(partial: bool, unasked: bool, count: usize, progress: u64, top: u64) -> bool
    ensures { result ≡ points_to_last partial unasked count progress top }
{
    !partial && unasked && count == 0 && top.checked_add(1) == Some(progress)
}
