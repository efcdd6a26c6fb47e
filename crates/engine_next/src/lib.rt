// What is to be done next, at a time.
#![tactic(auto)]

ghost use Rattle.std.specs.Prelude.{◌≡◌, true};
ghost use Rattle.area.specs.Places.{read_table};
ghost use Rattle.engine_state.specs.State.{engine_in, held_state};
ghost use Rattle.engine_next.specs.Next.{page_of, next_by, is_urgent, any_urgent, sync_due, first_next, next_state};

use engine_due::Waits;
use engine_slots::Slot;
use refusals::{Fault, Refusal};

// The page of an Id: its file, and its length.
#[derive(Clone, Copy)]
pub struct Page {
    pub id: u64,
    pub file: u64,
    pub length: u64,
}

// What is to be done: the STATUS of an Id is due; a page gets its name; a page is reported; an Id is closed; a sync begins; nothing.
#[derive(Clone, Copy)]
pub enum Next {
    Answer(u64),
    Name(Page),
    Report(Page),
    Close(u64),
    Sync,
    Nothing,
}

// ---- of one transfer

// The page of an Id, as it is on disk.
fn page_of(state: &[u8], id: u64) -> Page
    requires { held_state state.now ≡ true }
    ensures { result ≡ page_of (engine_in state.now) id }
{
    let synced = &state[engine_state::SYNCED..];
    let kept = area_find::find_place(synced, id);
    if !kept.open {
        return Page {
            id,
            file: 0,
            length: 0,
        };
    }
    let at = kept.at;
    Page {
        id,
        file: engine_slots::slot_at(synced, at).file,
        length: area_at::head(synced, at, area::LENGTH),
    }
}

fn next_by(kind: u64, page: Page) -> Next
    ensures { result ≡ next_by kind page }
{
    if kind == 2 {
        return Next::Answer(page.id);
    }
    if kind == 3 {
        return Next::Name(page);
    }
    if kind == 4 {
        return Next::Report(page);
    }
    Next::Close(page.id)
}

// ---- a sync

fn is_urgent(done: u64, s: Slot) -> bool
    ensures { result ≡ is_urgent done s }
{
    if done < s.due {
        return true;
    }
    if s.named != 1 {
        return false;
    }
    s.reported != 1
}

fn any_urgent(state: &[u8]) -> bool
    requires { held_state state.now ≡ true }
    ensures { result ≡ any_urgent (engine_in state.now).done (engine_in state.now).now.slots }
{
    let done = engine_state::number(state, engine_state::DONE);
    let n = area_at::open_count(state) as usize;
    for i in 0..n {
        if is_urgent(done, engine_slots::slot_at(state, i)) {
            return true;
        }
    }
    false
}

fn sync_due(state: &[u8], time: u64, waits: Waits) -> bool
    requires { held_state state.now ≡ true }
    ensures { result ≡ sync_due (engine_in state.now) time waits }
{
    if engine_state::number(state, engine_state::CHANGED) != 1 {
        return false;
    }
    if !engine_sync::may_begin(state) {
        return false;
    }
    if any_urgent(state) {
        return true;
    }
    engine_due::is_over(
        time,
        engine_state::number(state, engine_state::BEGUN),
        waits.interval,
    )
}

// ---- the first of all

fn first_next(state: &[u8], time: u64, waits: Waits, from: u64) -> Next
    requires { held_state state.now ≡ true }
    ensures { result ≡ first_next (engine_in state.now) time waits from (read_table state.now) }
{
    let n = area_at::open_count(state) as usize;
    for i in 0..n {
        let kind = engine_due::kind_from(state, i, time, waits, from);
        if kind != 0 {
            let page = page_of(state, area_at::head(state, i, area::ID));
            return next_by(kind, page);
        }
    }
    if sync_due(state, time, waits) {
        return Next::Sync;
    }
    Next::Nothing
}

// What is to be done next, of the Ids from `from` on. Nothing changes by asking.
pub fn decide(state: &[u8], time: u64, waits: Waits, from: u64) -> Result<Next, Refusal>
    ensures { result ≡ next_state state.now time waits from }
{
    if !engine_state::held(state) {
        return Err(Fault::NoTable.into());
    }
    Ok(first_next(state, time, waits, from))
}
