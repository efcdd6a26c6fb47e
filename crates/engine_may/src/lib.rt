// Whether a page may get its name, and whether it may be reported, by what is on disk.
#![tactic(auto)]

ghost use Rattle.std.specs.Prelude.{◌≡◌, true};
ghost use Rattle.engine_model.specs.Engine.{may_name, may_report};
ghost use Rattle.engine_state.specs.State.{engine_in, held_state};

// The page is complete on disk, and still open for the same file.
pub fn may_name(state: &[u8], id: u64) -> bool
    requires { held_state state.now ≡ true }
    ensures { result ≡ may_name (engine_in state.now) id }
{
    if !engine_state::is_complete(&state[engine_state::SYNCED..], id) {
        return false;
    }
    engine_state::same_file(state, id)
}

// The page is complete on disk, and its name is there too.
pub fn may_report(state: &[u8], id: u64) -> bool
    requires { held_state state.now ≡ true }
    ensures { result ≡ may_report (engine_in state.now) id }
{
    let synced = &state[engine_state::SYNCED..];
    if !engine_state::is_complete(synced, id) {
        return false;
    }
    let at = area_find::find_place(synced, id).at;
    engine_slots::slot_at(synced, at).named == 1
}
