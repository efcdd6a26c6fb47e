// The engine's state in one lent area: judged, its numbers read and written, an Id taken out of what is now.
#![tactic(auto)]

ghost use Rattle.std.specs.Prelude.{◌≡◌, true, ◌≤◌, ◌<◌, length, drop};
ghost use Rattle.area.specs.Places.{read_table, KeptAt};
ghost use Rattle.area.specs.Judge.{judged};
ghost use Rattle.engine_model.specs.Snapshots.{is_complete, same_file};
ghost use Rattle.engine_state.specs.Layout.{synced_octet, state_octets};
ghost use Rattle.engine_state.specs.State.{snapshot_in, number_in, held_state, set_number, taken_out};

// The octets of a snapshot, and where those begin that a sync is under way for and that are synced; what is now is the first.
pub const SNAPSHOT: usize = engine_slots::SNAPSHOT_OCTETS;

pub const PENDING: usize = SNAPSHOT;

pub const SYNCED: usize = 2 * SNAPSHOT;

// The engine's own numbers: 1 where a sync is under way, the sync last begun, the last good one, the next file, 1 where something is to
// be saved, and when the last sync was begun.
pub const UNDER_WAY: usize = 0;

pub const NUMBER: usize = 1;

pub const DONE: usize = 2;

pub const NEXT: usize = 3;

pub const CHANGED: usize = 4;

pub const BEGUN: usize = 5;

const NUMBERS_AT: usize = 3 * SNAPSHOT / 8;

pub const STATE: usize = 3 * SNAPSHOT + 6 * 8;

// Numbers of files and of syncs end here.
pub const LAST_NUMBER: u64 = 18446744073709551614;

// One of the engine's numbers, and that number changed.
pub fn number(state: &[u8], f: usize) -> u64
    requires { (state_octets ≤ length state.now) × (f < 6) }
    ensures { result ≡ number_in state.now f }
{
    words::word(state, NUMBERS_AT + f)
}

pub fn set_number(state: &mut [u8], f: usize, v: u64)
    requires { (state_octets ≤ length state.old) × (f < 6) }
    ensures { state.new ≡ set_number state.old f v }
{
    words::put_word(state, NUMBERS_AT + f, v);
}

// Whether the octets hold an engine. No is refusal 22. Early returns: one chain of `&&` was tried, whose branches join at each test,
// and search didn't close its proof.
pub fn held(state: &[u8]) -> bool
    ensures { result ≡ held_state state.now }
{
    if state.len() < STATE {
        return false;
    }
    if LAST_NUMBER < number(state, NUMBER) {
        return false;
    }
    if !area_judge::judge(state) {
        return false;
    }
    if !area_judge::judge(&state[PENDING..]) {
        return false;
    }
    area_judge::judge(&state[SYNCED..])
}

// The Id, which is open at a place, is taken out of what is now: its transfer, and its slot.
pub fn take_out(state: &mut [u8], place: usize, id: u64)
    requires { (held_state state.old ≡ true) × KeptAt id (read_table state.old) place }
    ensures { state.new ≡ taken_out state.old id }
{
    let n = area_at::open_count(state) as usize;
    area_remove::remove_at(state, place);
    engine_slots::remove_slot(state, n, place);
}

// Whether the Id is open for the same file in what is now and in what is synced.
pub fn same_file(state: &[u8], id: u64) -> bool
    requires { held_state state.now ≡ true }
    ensures { result ≡ same_file (snapshot_in state.now) (snapshot_in (drop synced_octet state.now)) id }
{
    let here = area_find::find_place(state, id);
    if !here.open {
        return false;
    }
    let synced = &state[SYNCED..];
    let there = area_find::find_place(synced, id);
    if !there.open {
        return false;
    }
    engine_slots::slot_at(state, here.at).file == engine_slots::slot_at(synced, there.at).file
}

// Whether all octets of an Id are received.
pub fn is_complete(snap: &[u8], id: u64) -> bool
    requires { judged snap.now ≡ true }
    ensures { result ≡ is_complete (snapshot_in snap.now) id }
{
    let kept = area_find::find_place(snap, id);
    if !kept.open {
        return false;
    }
    let at = kept.at;
    let rows = area_at::rows_at(snap, at);
    run_rows::is_complete(snap, rows, area_at::head(snap, at, area::LENGTH))
}
