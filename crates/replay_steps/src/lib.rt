// What `replay` does for each record, by its kind.
#![tactic(auto)]

ghost use Rattle.std.specs.Prelude.{◌≡◌, ◌≤◌, length, take};
ghost use Rattle.text.specs.Added.{Added};
ghost use Rattle.replay_steps.specs.Records.{cut_line, record_lines, area_after, chosen_of, other_of, zero_after, one_after};
ghost use Rattle.replay_steps.specs.Room.{Room};

// The line of a record inside which the input ends.
pub fn cut_short(number: u64, out: &mut [u8]) -> usize
    ensures { Added out.old 0 (cut_line number) out.new result }
{
    replay_lines::put_plain(out, 0, number, b" cut short\n")
}

// The lines of one record, as far as `out` has room. `area` holds the chosen table, and `lent` is the buffer that STATUS is written into.
fn lines(
    area: &mut [u8],
    other: &[u8],
    number: u64,
    kind: u8,
    body: &[u8],
    lent: &mut [u8],
    out: &mut [u8],
) -> usize
    ensures { (Added out.old 0 (record_lines number kind body.now area.old other.now lent.old) out.new result)
        × (area.new ≡ area_after kind body.now area.old other.now) }
{
    if kind == b'M' {
        return replay_merge::merge(area, other, number, body, out);
    }
    if kind == b'S' {
        return replay_status::status(area, number, body, lent, out);
    }
    if kind == b'P' {
        return replay_deliver::deliver(area, number, body, lent, out);
    }
    replay_kinds::one_table(area, number, kind, body, out)
}

// The lines of one record, whole, at the start of `out`, and their length. `chosen` is 0 for table 0, and else it is table 1.
pub fn answer(
    zero: &mut [u8],
    one: &mut [u8],
    chosen: u8,
    number: u64,
    kind: u8,
    body: &[u8],
    lent: &mut [u8],
    out: &mut [u8],
) -> usize
    requires { Room body.now lent.old out.old }
    ensures { (result ≤ length out.new)
        × (take result out.new ≡ record_lines number kind body.now (chosen_of chosen zero.old one.old) (other_of chosen zero.old one.old) lent.old)
        × (zero.new ≡ zero_after chosen kind body.now zero.old one.old)
        × (one.new ≡ one_after chosen kind body.now zero.old one.old) }
{
    if chosen == 0 {
        return lines(zero, one, number, kind, body, lent, out);
    }
    lines(one, zero, number, kind, body, lent, out)
}
