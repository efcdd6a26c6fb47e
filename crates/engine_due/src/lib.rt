// What is due for one transfer, at a time.
#![tactic(auto)]

ghost use Rattle.std.specs.Prelude.{◌≡◌, true, ◌<◌, length};
ghost use Rattle.words.specs.Words.{word_at};
ghost use Rattle.area.specs.Layout.{id_field, head_at};
ghost use Rattle.area.specs.Places.{read_table};
ghost use Rattle.engine_slots.specs.Slots.{slot_at};
ghost use Rattle.engine_state.specs.State.{engine_in, held_state};
ghost use Rattle.engine_due.specs.Due.{is_covered, name_due, report_due, is_over, is_at_end, kind_for, kind_from};

use engine_slots::Slot;

// How long it waits: between two syncs that nobody waits for, until a page that was reported is closed, and until a transfer that is not
// heard is (0: for ever).
#[derive(Clone, Copy)]
pub struct Waits {
    pub interval: u64,
    pub linger: u64,
    pub forget: u64,
}

fn is_covered(done: u64, same: bool, s: Slot) -> bool
    ensures { result ≡ is_covered done same s }
{
    if s.due == 0 {
        return false;
    }
    if done < s.due {
        return false;
    }
    same
}

fn name_due(may: bool, s: Slot) -> bool
    ensures { result ≡ name_due may s }
{
    if !may {
        return false;
    }
    s.named != 1
}

fn report_due(may: bool, same: bool, s: Slot) -> bool
    ensures { result ≡ report_due may same s }
{
    if !may {
        return false;
    }
    if !same {
        return false;
    }
    s.reported != 1
}

// So long ago.
pub fn is_over(time: u64, since: u64, wait: u64) -> bool
    ensures { result ≡ is_over time since wait }
{
    if time < since {
        return wait == 0;
    }
    wait <= time - since
}

fn is_at_end(complete: bool, time: u64, waits: Waits, s: Slot) -> bool
    ensures { result ≡ is_at_end complete time waits s }
{
    if s.reported == 1 {
        return is_over(time, s.heard, waits.linger);
    }
    if complete {
        return false;
    }
    if waits.forget == 0 {
        return false;
    }
    is_over(time, s.heard, waits.forget)
}

// What is to be done for the transfer at place i, by the number that C has for it, and 0 for nothing.
fn kind_at(state: &[u8], i: usize, time: u64, waits: Waits) -> u64
    requires { (held_state state.now ≡ true) × (i < length (read_table state.now)) }
    ensures { result ≡ kind_for (engine_in state.now) time waits (word_at state.now (head_at i id_field)) (slot_at state.now i) }
{
    let id = area_at::head(state, i, area::ID);
    let s = engine_slots::slot_at(state, i);
    let same = engine_state::same_file(state, id);
    if name_due(engine_may::may_name(state, id), s) {
        return 3;
    }
    if is_covered(engine_state::number(state, engine_state::DONE), same, s) {
        return 2;
    }
    if report_due(engine_may::may_report(state, id), same, s) {
        return 4;
    }
    if is_at_end(engine_state::is_complete(state, id), time, waits, s) {
        return 5;
    }
    0
}

// The same, and 0 for a transfer whose Id is below `from`.
pub fn kind_from(state: &[u8], i: usize, time: u64, waits: Waits, from: u64) -> u64
    requires { (held_state state.now ≡ true) × (i < length (read_table state.now)) }
    ensures { result ≡ kind_from (engine_in state.now) time waits from (word_at state.now (head_at i id_field)) (slot_at state.now i) }
{
    if area_at::head(state, i, area::ID) < from {
        return 0;
    }
    kind_at(state, i, time, waits)
}
