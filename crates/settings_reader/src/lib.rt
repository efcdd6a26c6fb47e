// A plant's settings file, read: a version, a count, then pairs of a key and a value with rising keys (R18.6).
#![tactic(auto)]

ghost use Rattle.std.specs.Prelude.{◌≡◌, ◌≤◌, min, length, drop};
ghost use Rattle.settings_reader.specs.ReadSettings.{no_settings, with_pair, settings_from, read_settings};

use refusals::{Fault, Refusal};
use settings::Settings;

// No pair was read yet.
fn no_settings(version: u64) -> Settings
    ensures { result ≡ no_settings version }
{
    Settings {
        version,
        largest: 0,
        timed: false,
        interval: 0,
        paired: false,
        partner: 0,
    }
}

// The settings with one pair more.
#[tactic(auto, unfolding(crate::specs::ReadSettings::with_pair))]
fn with_pair(key: u64, value: u64, got: Settings) -> Settings
    ensures { result ≡ with_pair key value got }
{
    match key {
        1 => Settings {
            largest: value,
            ..got
        },
        2 => Settings {
            timed: true,
            interval: value,
            ..got
        },
        _ => Settings {
            paired: true,
            partner: value,
            ..got
        },
    }
}

// How many turns the loop over `count` pairs needs: keys rise and none is above 3, so a fourth pair is refused, whatever the count is.
fn turns(count: u64) -> u64
    ensures { result ≡ min count 4 }
{
    count.min(4)
}

// Reads the pairs, `count` of them, from `start` on. Refusals 1 and 25.
#[tactic(auto, using(refusals::proofs::FaultLaws::fault_answers, settings_pairs::proofs::PairLaws::after_both, crate::proofs::WalkLaws::from_step, crate::proofs::WalkLaws::key_rises, crate::proofs::WalkLaws::key_le))]
fn read_pairs(file: &[u8], start: usize, version: u64, count: u64) -> Result<Settings, Refusal>
    requires { start ≤ length file.now }
    ensures { result ≡ settings_from version 0 (no_settings version) count (drop start file.now) }
{
    let mut at = start;
    let mut last: u64 = 0;
    let mut got = no_settings(version);
    // named, since the invariant speaks of it
    for _turn in 0..turns(count) {
        let pair = settings_pairs::read_pair(file, at, version, last)?;
        got = with_pair(pair.key, pair.value, got);
        last = pair.key;
        at += pair.size;
    }
    if at < file.len() || got.largest == 0 {
        return Err(Fault::Settings.into());
    }
    Ok(got)
}

// Reads a plant's settings file; `known` is the highest version that the reader knows.
#[tactic(auto, using(refusals::proofs::FaultLaws::fault_answers, settings_pairs::proofs::PairLaws::after_number), unfolding(crate::specs::ReadSettings::read_settings, crate::specs::ReadSettings::head_refusal))]
pub fn read_settings(file: &[u8], known: u64) -> Result<Settings, Refusal>
    ensures { result ≡ read_settings known file.now }
{
    let version = varint::read(file, 0)?;
    settings::version_refusal(known, version.value)?;
    let count = varint::read(file, version.size)?;
    read_pairs(file, version.size + count.size, version.value, count.value)
}
