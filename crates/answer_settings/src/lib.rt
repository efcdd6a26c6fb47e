// What C is answered of a plant's settings, read and written.
#![tactic(auto)]

ghost use Rattle.std.specs.Prelude.{◌≡◌};
ghost use Rattle.answers.specs.Answers.{written_answer};
ghost use Rattle.settings_reader.specs.ReadSettings.{read_settings};
ghost use Rattle.settings_writer.specs.WriteSettings.{settings_written, settings_buffer};
ghost use Rattle.answer_settings.specs.SettingsAnswers.{settings_of, settings_answer};

use answers::WrittenAnswer;
use refusals::Refusal;
use settings::Settings;

// struct saratoga_settings.
#[repr(C)]
#[derive(Clone, Copy)]
pub struct SettingsAnswer {
    pub number: u64,
    pub code: u64,
    pub version: u64,
    pub largest_payload: u64,
    pub has_interval: u64,
    pub interval: u64,
    pub has_partner: u64,
    pub partner: u64,
}

// Any number but 0 says that there is an interval, or a partner.
fn settings_of(
    version: u64,
    largest: u64,
    timed: u64,
    interval: u64,
    paired: u64,
    partner: u64,
) -> Settings
    ensures { result ≡ settings_of version largest timed interval paired partner }
{
    Settings {
        version,
        largest,
        timed: timed != 0,
        interval,
        paired: paired != 0,
        partner,
    }
}

fn settings_answer(a: Result<Settings, Refusal>) -> SettingsAnswer
    ensures { result ≡ settings_answer a }
{
    match a {
        Ok(s) => SettingsAnswer {
            number: 0,
            code: 0,
            version: s.version,
            largest_payload: s.largest,
            has_interval: refusals::bit_of(s.timed),
            interval: s.interval,
            has_partner: refusals::bit_of(s.paired),
            partner: s.partner,
        },
        Err(r) => SettingsAnswer {
            number: r.number,
            code: r.code,
            version: 0,
            largest_payload: 0,
            has_interval: 0,
            interval: 0,
            has_partner: 0,
            partner: 0,
        },
    }
}

pub fn read_settings(file: &[u8], known: u64) -> SettingsAnswer
    ensures { result ≡ settings_answer (read_settings known file.now) }
{
    settings_answer(settings_reader::read_settings(file, known))
}

pub fn write_settings(
    version: u64,
    largest: u64,
    timed: u64,
    interval: u64,
    paired: u64,
    partner: u64,
    out: &mut [u8],
) -> WrittenAnswer
    ensures { (result ≡ written_answer (settings_written (settings_of version largest timed interval paired partner) out.old))
        × (out.new ≡ settings_buffer (settings_of version largest timed interval paired partner) out.old) }
{
    let s = settings_of(version, largest, timed, interval, paired, partner);
    answers::written_answer(settings_writer::write_settings(out, s))
}
