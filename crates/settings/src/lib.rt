// What a plant's settings may be: which versions, keys and values are refused (R18.4, R18.5).
#![tactic(auto)]

ghost use Rattle.std.specs.Prelude.{◌≡◌};
ghost use Rattle.settings.specs.Settings.{version_refusal, highest_key, key_refusal, range_refusal, value_refusal};
ghost use Rattle.refusals.specs.Faults.{refused};

use refusals::Fault;

// A plant's settings: the largest payload; the seconds between unasked STATUS where it is `timed`; the Id of the partner dish where it
// is `paired`.
// Flags beside their numbers, not Option: the writer promises refusal 25 for a number beside a no (settings_writer: option_refusal, edit
// number_left_out), which an Option could not say.
#[derive(Clone, Copy)]
pub struct Settings {
    pub version: u64,
    pub largest: u64,
    pub timed: bool,
    pub interval: u64,
    pub paired: bool,
    pub partner: u64,
}

// Refusal 24 of a version. `known` is the highest version that the reader knows.
#[tactic(auto, unfolding(crate::specs::Settings::version_refusal))]
pub fn version_refusal(known: u64, version: u64) -> Result<(), Fault>
    ensures { refused result ≡ version_refusal known version }
{
    if version < 1 || known < version || 2 < version {
        return Err(Fault::SettingsVersion);
    }
    Ok(())
}

fn highest_key(version: u64) -> u64
    ensures { result ≡ highest_key version }
{
    if version == 1 { 2 } else { 3 }
}

// Refusal 25 of a key that comes after the key `last`.
#[tactic(auto, unfolding(crate::specs::Settings::key_refusal))]
pub fn key_refusal(version: u64, last: u64, key: u64) -> Result<(), Fault>
    ensures { refused result ≡ key_refusal version last key }
{
    if key <= last || highest_key(version) < key {
        return Err(Fault::Settings);
    }
    Ok(())
}

// Refusal 25 of a value that is not from 1 to `most`.
#[tactic(auto, unfolding(crate::specs::Settings::range_refusal))]
fn range_refusal(most: u64, value: u64) -> Result<(), Fault>
    ensures { refused result ≡ range_refusal most value }
{
    if value < 1 || most < value {
        return Err(Fault::Settings);
    }
    Ok(())
}

// Refusal 25 of the value of a key.
#[tactic(auto, unfolding(crate::specs::Settings::value_refusal))]
pub fn value_refusal(key: u64, value: u64) -> Result<(), Fault>
    ensures { refused result ≡ value_refusal key value }
{
    match key {
        1 => range_refusal(65000, value),
        2 => range_refusal(3600, value),
        _ if 0x100000000 <= value => Err(Fault::Settings),
        _ => Ok(()),
    }
}
