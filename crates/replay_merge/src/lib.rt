// The records `T` and `M`: which of two tables is chosen, and the other's transfer merged into the chosen one's.
#![tactic(auto)]

ghost use Rattle.std.specs.Prelude.{◌≡◌, ◌≤◌, length};
ghost use Rattle.text.specs.Added.{Added};
ghost use Rattle.replay_merge.specs.MergeLines.{names_table, table_line, choose_lines, chosen_after, merged_line, merge_text, merge_lines, merge_after};

use refusals::Refusal;
use replay_fields::{put_field, put_reached};
use replay_lines::put_bad_length;
use transfer::Reached;

// Whether the body of a `T` names a table.
fn names_table(body: &[u8]) -> bool
    ensures { result ≡ names_table body.now }
{
    if body.len() != 1 {
        return false;
    }
    body[0] < 2
}

// The table that is chosen.
fn put_table(out: &mut [u8], at: usize, number: u64, which: u8) -> usize
    requires { at ≤ length out.old }
    ensures { Added out.old at (table_line number which) out.new result }
{
    let a = text::put_decimal(out, at, number);
    let b = put_field(out, a, b" table ", which as u64);
    text::push(out, b, 10)
}

// `T`: chooses a table.
pub fn choose(number: u64, body: &[u8], out: &mut [u8]) -> usize
    ensures { Added out.old 0 (choose_lines number body.now) out.new result }
{
    if names_table(body) {
        let which = body[0];
        return put_table(out, 0, number, which);
    }
    put_bad_length(out, 0, number)
}

// The table that is chosen after a record, by the one that was chosen before it.
pub fn chosen_after(kind: u8, body: &[u8], chosen: u8) -> u8
    ensures { result ≡ chosen_after kind body.now chosen }
{
    if kind != b'T' {
        return chosen;
    }
    if names_table(body) {
        return body[0];
    }
    chosen
}

// A transfer merged, and how far it has come.
fn put_joined(out: &mut [u8], at: usize, number: u64, id: u64, x: Reached) -> usize
    requires { at ≤ length out.old }
    ensures { Added out.old at (merged_line number id x) out.new result }
{
    let a = text::put_decimal(out, at, number);
    let b = put_field(out, a, b" merge id=", id);
    let c = put_reached(out, b, x);
    text::push(out, c, 10)
}

// What merging answered.
fn put_merged(out: &mut [u8], at: usize, number: u64, id: u64, a: Result<Reached, Refusal>) -> usize
    requires { at ≤ length out.old }
    ensures { Added out.old at (merge_text number id a) out.new result }
{
    match a {
        Ok(x) => put_joined(out, at, number, id, x),
        Err(x) => replay_lines::put_refused(out, at, number, x),
    }
}

// `M`: merges an Id of the other table, which is only read, into the chosen one.
pub fn merge(area: &mut [u8], other: &[u8], number: u64, body: &[u8], out: &mut [u8]) -> usize
    ensures { (Added out.old 0 (merge_lines number body.now area.old other.now) out.new result)
        × (area.new ≡ merge_after body.now area.old other.now) }
{
    if body.len() != 8 {
        return put_bad_length(out, 0, number);
    }
    let id = octets_read::read_eight(body, 0);
    let a = area_merge::merge(area, other, id);
    put_merged(out, 0, number, id, a)
}
