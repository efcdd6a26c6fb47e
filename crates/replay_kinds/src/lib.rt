// What `replay` does for a record, by its kind, where the kind takes the chosen table alone, or none, and no buffer for STATUS.
#![tactic(auto)]

ghost use Rattle.std.specs.Prelude.{◌≡◌};
ghost use Rattle.text.specs.Added.{Added};
ghost use Rattle.replay_kinds.specs.ByKind.{no_table_lines, one_table_lines, one_table_after};

// The lines of a record that takes no table.
fn no_table(number: u64, kind: u8, body: &[u8], out: &mut [u8]) -> usize
    ensures { Added out.old 0 (no_table_lines number kind body.now) out.new result }
{
    if kind == b'R' {
        return replay_records::read(number, body, out);
    }
    if kind == b'W' {
        return replay_records::time(number, body, out);
    }
    if kind == b'L' {
        return replay_plan::plan_record(number, body, out);
    }
    if kind == b'K' {
        return replay_check::check_record(number, body, out);
    }
    if kind == b'T' {
        return replay_merge::choose(number, body, out);
    }
    replay_lines::put_unknown(out, 0, number, kind as u64)
}

// The lines of a record that takes one table or none.
pub fn one_table(area: &mut [u8], number: u64, kind: u8, body: &[u8], out: &mut [u8]) -> usize
    ensures { (Added out.old 0 (one_table_lines number kind body.now area.old) out.new result)
        × (area.new ≡ one_table_after kind body.now area.old) }
{
    if kind == b'F' {
        return replay_records::fresh(area, number, body, out);
    }
    if kind == b'O' {
        return replay_records::open(area, number, body, out);
    }
    if kind == b'D' {
        return replay_records::record(area, number, body, out);
    }
    if kind == b'C' {
        return replay_records::close(area, number, body, out);
    }
    no_table(number, kind, body, out)
}
