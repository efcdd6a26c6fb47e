// A plant's settings file, read and written.
ghost use Rattle.std.specs.Prelude.{◌≡◌};
ghost use Rattle.settings_reader.specs.ReadSettings.{read_settings};
ghost use Rattle.settings_writer.specs.WriteSettings.{settings_written, settings_buffer};
ghost use Rattle.answers.specs.Answers.{written_answer};
ghost use Rattle.answer_settings.specs.SettingsAnswers.{settings_of, settings_answer};

use answer_settings::SettingsAnswer;
use answers::WrittenAnswer;

#[unsafe(no_mangle)]
pub extern "C" fn saratoga_read_settings(file: &[u8], known: u64) -> SettingsAnswer
    ensures { result ≡ settings_answer (read_settings known file.now) }
{
    answer_settings::read_settings(file, known)
}

#[unsafe(no_mangle)]
pub extern "C" fn saratoga_write_settings(
    version: u64,
    largest: u64,
    timed: u64,
    interval: u64,
    paired: u64,
    partner: u64,
    out: &mut [u8],
) -> WrittenAnswer
    ensures { (result ≡ written_answer (settings_written (settings_of version largest timed interval paired partner) out.old))
        × (out.new ≡ settings_buffer (settings_of version largest timed interval paired partner) out.old) }
{
    answer_settings::write_settings(version, largest, timed, interval, paired, partner, out)
}
