// Starting from what was saved, and syncs: beginning one, and how it ended.
#![tactic(auto)]

ghost use Rattle.std.specs.Prelude.{◌≡◌, ◌≤◌, length};
ghost use Rattle.engine_slots.specs.Layout.{snapshot_octets};
ghost use Rattle.engine_model.specs.Snapshots.{is_some};
ghost use Rattle.engine_model.specs.Engine.{may_sync, current};
ghost use Rattle.engine_state.specs.Layout.{state_octets};
ghost use Rattle.engine_state.specs.State.{engine_in};
ghost use Rattle.engine_sync.specs.Syncs.{start_refusal, three_of, numbered, started_state, beginning, begun_as, begun_state, held_refusal, good_state, bad_state, ended_state};
ghost use Rattle.refusals.specs.Faults.{refused};

use refusals::{Fault, Refusal};

// ---- starting from what was saved

// Why nothing can start from what was saved.
fn start_refusal(state: &[u8], saved: &[u8], number: u64) -> Result<(), Fault>
    ensures { refused result ≡ start_refusal state.now saved.now number }
{
    if state.len() < engine_state::STATE {
        return Err(Fault::NoRoom);
    }
    if saved.len() < engine_state::SNAPSHOT {
        return Err(Fault::NoTable);
    }
    if !area_judge::judge(saved) {
        return Err(Fault::NoTable);
    }
    if engine_state::LAST_NUMBER < number {
        return Err(Fault::Field);
    }
    Ok(())
}

// All three snapshots become what was saved.
fn put_three(state: &mut [u8], saved: &[u8])
    requires { (state_octets ≤ length state.old) × (snapshot_octets ≤ length saved.now) }
    ensures { state.new ≡ three_of state.old saved.now }
{
    let snapshot = &saved[..engine_state::SNAPSHOT];
    octets::copy_into(state, 0, snapshot);
    octets::copy_into(state, engine_state::PENDING, snapshot);
    octets::copy_into(state, engine_state::SYNCED, snapshot);
}

// The engine's own numbers, all six of them.
fn put_numbers(
    state: &mut [u8],
    way: u64,
    number: u64,
    done: u64,
    next: u64,
    changed: u64,
    begun: u64,
)
    requires { state_octets ≤ length state.old }
    ensures { state.new ≡ numbered state.old way number done next changed begun }
{
    engine_state::set_number(state, engine_state::UNDER_WAY, way);
    engine_state::set_number(state, engine_state::NUMBER, number);
    engine_state::set_number(state, engine_state::DONE, done);
    engine_state::set_number(state, engine_state::NEXT, next);
    engine_state::set_number(state, engine_state::CHANGED, changed);
    engine_state::set_number(state, engine_state::BEGUN, begun);
}

// Starts from a snapshot that was saved. `number` is the number of the last sync, and `next` a file number above all that were used.
pub fn start(state: &mut [u8], saved: &[u8], number: u64, next: u64) -> Result<(), Fault>
    ensures { (refused result ≡ start_refusal state.old saved.now number)
        × (state.new ≡ started_state state.old saved.now number next) }
{
    start_refusal(state, saved, number)?;
    put_three(state, saved);
    put_numbers(state, 0, number, number, next, 0, 0);
    Ok(())
}

// ---- a sync begins

// The words of a snapshot, and the words where those begin that a sync is under way for and that are synced.
const WORDS: usize = engine_state::SNAPSHOT / 8;

const PENDING_AT: usize = engine_state::PENDING / 8;

const SYNCED_AT: usize = engine_state::SYNCED / 8;

// Whether a sync may begin: none is under way, and there is a number for it.
pub fn may_begin(state: &[u8]) -> bool
    requires { state_octets ≤ length state.now }
    ensures { result ≡ may_sync (engine_in state.now) }
{
    if 0 < engine_state::number(state, engine_state::UNDER_WAY) {
        return false;
    }
    engine_state::number(state, engine_state::NUMBER) < engine_state::LAST_NUMBER
}

// What is now becomes what the sync of that number is for.
fn put_begun(state: &mut [u8], number: u64, time: u64)
    requires { state_octets ≤ length state.old }
    ensures { state.new ≡ begun_as state.old number time }
{
    words::move_words(state, 0, PENDING_AT, WORDS);
    engine_state::set_number(state, engine_state::UNDER_WAY, 1);
    engine_state::set_number(state, engine_state::NUMBER, number);
    engine_state::set_number(state, engine_state::CHANGED, 0);
    engine_state::set_number(state, engine_state::BEGUN, time);
}

// A sync begins, of what is now, where none is under way. Answers its number, where one began.
pub fn begin(state: &mut [u8], time: u64) -> Result<Option<u64>, Refusal>
    ensures { (result ≡ beginning state.old) × (state.new ≡ begun_state state.old time) }
{
    if !engine_state::held(state) {
        return Err(Fault::NoTable.into());
    }
    if !may_begin(state) {
        return Ok(None);
    }
    let sync = engine_state::number(state, engine_state::NUMBER) + 1;
    put_begun(state, sync, time);
    Ok(Some(sync))
}

// ---- and ends

// Whether the sync of that number is the one under way.
fn is_current(state: &[u8], sync: u64) -> bool
    requires { state_octets ≤ length state.now }
    ensures { result ≡ is_some (current (engine_in state.now) sync) }
{
    if sync == engine_state::number(state, engine_state::NUMBER) {
        return 0 < engine_state::number(state, engine_state::UNDER_WAY);
    }
    false
}

// It came back good: what it was for is synced.
fn put_good(state: &mut [u8])
    requires { state_octets ≤ length state.old }
    ensures { state.new ≡ good_state state.old }
{
    let number = engine_state::number(state, engine_state::NUMBER);
    words::move_words(state, PENDING_AT, SYNCED_AT, WORDS);
    engine_state::set_number(state, engine_state::UNDER_WAY, 0);
    engine_state::set_number(state, engine_state::DONE, number);
}

// It came back bad: what was recorded since the last good one counts as lost.
fn put_bad(state: &mut [u8])
    requires { state_octets ≤ length state.old }
    ensures { state.new ≡ bad_state state.old }
{
    words::move_words(state, SYNCED_AT, 0, WORDS);
    engine_state::set_number(state, engine_state::UNDER_WAY, 0);
    engine_state::set_number(state, engine_state::CHANGED, 0);
}

// The sync of a number came back, good or bad.
pub fn end(state: &mut [u8], sync: u64, good: bool) -> Result<(), Fault>
    ensures { (refused result ≡ held_refusal state.old) × (state.new ≡ ended_state state.old sync good) }
{
    if !engine_state::held(state) {
        return Err(Fault::NoTable);
    }
    if !is_current(state, sync) {
        return Ok(());
    }
    if good {
        put_good(state);
        return Ok(());
    }
    put_bad(state);
    Ok(())
}
