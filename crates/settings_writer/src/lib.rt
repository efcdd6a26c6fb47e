// A plant's settings file, written: which settings are refused, and the octets of the others (R18.8).
#![tactic(auto)]

ghost use Rattle.std.specs.Prelude.{◌≡◌, ◌+◌, ◌≤◌, length};
ghost use Rattle.octets.specs.Put.{put};
ghost use Rattle.settings_writer.specs.WriteSettings.{option_refusal, settings_refusal, settings_write_refusal, pair_octets, option_octets, pair_count, settings_octets, settings_written, settings_buffer};
ghost use Rattle.refusals.specs.Faults.{refused};

use refusals::{Fault, Refusal};
use settings::Settings;

// Refusal 25 of what a key that may be left out holds.
#[tactic(auto, unfolding(crate::specs::WriteSettings::option_refusal))]
fn option_refusal(version: u64, given: bool, key: u64, value: u64) -> Result<(), Fault>
    ensures { refused result ≡ option_refusal version given key value }
{
    if given {
        settings::key_refusal(version, 0, key)?;
        settings::value_refusal(key, value)
    } else if value == 0 {
        Ok(())
    } else {
        Err(Fault::Settings)
    }
}

// Refusals 24 and 25 of settings to be written.
#[tactic(auto, unfolding(crate::specs::WriteSettings::settings_refusal))]
fn settings_refusal(s: Settings) -> Result<(), Fault>
    ensures { refused result ≡ settings_refusal s }
{
    settings::version_refusal(2, s.version)?;
    settings::value_refusal(1, s.largest)?;
    option_refusal(s.version, s.timed, 2, s.interval)?;
    option_refusal(s.version, s.paired, 3, s.partner)
}

fn pair_count(s: Settings) -> u64
    ensures { result ≡ pair_count s }
{
    1 + (refusals::bit_of(s.timed) + refusals::bit_of(s.paired))
}

#[tactic(auto, using(varint::proofs::WrittenLaws::octets_most))]
fn pair_size(key: u64, value: u64) -> usize
    ensures { result ≡ length (pair_octets key value) }
{
    varint::size(key) + varint::size(value)
}

fn option_size(given: bool, key: u64, value: u64) -> usize
    ensures { result ≡ length (option_octets given key value) }
{
    if given { pair_size(key, value) } else { 0 }
}

// How many octets the file has.
#[tactic(auto, using(varint::proofs::WrittenLaws::octets_most, crate::proofs::WritingLaws::pair_most, crate::proofs::WritingLaws::option_most, crate::proofs::WritingLaws::settings_length))]
fn settings_size(s: Settings) -> usize
    ensures { result ≡ length (settings_octets s) }
{
    let head = varint::size(s.version) + varint::size(pair_count(s));
    let options = option_size(s.timed, 2, s.interval) + option_size(s.paired, 3, s.partner);
    head + (pair_size(1, s.largest) + options)
}

// The refusal of settings to be written into so much room.
#[tactic(auto, unfolding(crate::specs::WriteSettings::settings_write_refusal))]
fn write_refusal(s: Settings, room: usize) -> Result<(), Fault>
    ensures { refused result ≡ settings_write_refusal s room }
{
    settings_refusal(s)?;
    if room < settings_size(s) {
        return Err(Fault::NoRoom);
    }
    Ok(())
}

// A pair's octets from `at` on; hands back the place after them.
fn put_pair(out: &mut [u8], at: usize, key: u64, value: u64) -> usize
    requires { at + length (pair_octets key value) ≤ length out.old }
    ensures { (result ≡ at + length (pair_octets key value))
        × (out.new ≡ put at (pair_octets key value) out.old) }
{
    let next = varint::write(out, at, key);
    varint::write(out, next, value)
}

#[tactic(auto, using(octets::proofs::PutLaws::put_nil))]
fn put_option(out: &mut [u8], at: usize, given: bool, key: u64, value: u64) -> usize
    requires { at + length (option_octets given key value) ≤ length out.old }
    ensures { (result ≡ at + length (option_octets given key value))
        × (out.new ≡ put at (option_octets given key value) out.old) }
{
    if given {
        put_pair(out, at, key, value)
    } else {
        at
    }
}

// The octets of settings that are not refused, and their number.
#[tactic(auto, using(crate::proofs::WritingLaws::settings_length))]
fn put_settings(out: &mut [u8], s: Settings) -> usize
    requires { length (settings_octets s) ≤ length out.old }
    ensures { (result ≡ length (settings_octets s)) × (out.new ≡ put 0 (settings_octets s) out.old) }
{
    let count = varint::write(out, 0, s.version);
    let first = varint::write(out, count, pair_count(s));
    let second = put_pair(out, first, 1, s.largest);
    let third = put_option(out, second, s.timed, 2, s.interval);
    put_option(out, third, s.paired, 3, s.partner)
}

// Writes a plant's settings into a lent buffer.
#[tactic(auto, using(refusals::proofs::FaultLaws::fault_answers, crate::proofs::WritingLaws::writable), unfolding(crate::specs::WriteSettings::settings_written, crate::specs::WriteSettings::settings_buffer))]
pub fn write_settings(out: &mut [u8], s: Settings) -> Result<usize, Refusal>
    ensures { (result ≡ settings_written s out.old) × (out.new ≡ settings_buffer s out.old) }
{
    write_refusal(s, out.len())?;
    Ok(put_settings(out, s))
}
