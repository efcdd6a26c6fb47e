// MD5 of a file in parts, and the verdict on METADATA by it.
ghost use Rattle.std.specs.Prelude.{◌≡◌};
ghost use Rattle.md5_state.specs.State.{state_refusal};
ghost use Rattle.md5_feed.specs.Feed.{begin_state, add_state};
ghost use Rattle.md5_digest.specs.End.{digest_written, digest_buffer};
ghost use Rattle.md5_verdict.specs.Verdict.{check_md5};
ghost use Rattle.answers.specs.Answers.{written_answer};
ghost use Rattle.answer_md5.specs.Md5Answers.{feed_answer, verdict_answer};

use answer_md5::VerdictAnswer;
use answer_table::DoneAnswer;
use answers::WrittenAnswer;

#[unsafe(no_mangle)]
pub extern "C" fn saratoga_md5_begin(state: &mut [u8]) -> DoneAnswer
    ensures { (result ≡ feed_answer (state_refusal state.old)) × (state.new ≡ begin_state state.old) }
{
    answer_md5::begin(state)
}

#[unsafe(no_mangle)]
pub extern "C" fn saratoga_md5_add(state: &mut [u8], part: &[u8]) -> DoneAnswer
    ensures { (result ≡ feed_answer (state_refusal state.old))
        × (state.new ≡ add_state state.old part.now) }
{
    answer_md5::add(state, part)
}

#[unsafe(no_mangle)]
pub extern "C" fn saratoga_md5_end(state: &[u8], digest: &mut [u8]) -> WrittenAnswer
    ensures { (result ≡ written_answer (digest_written state.now digest.old))
        × (digest.new ≡ digest_buffer state.now digest.old) }
{
    answer_md5::end(state, digest)
}

#[unsafe(no_mangle)]
pub extern "C" fn saratoga_check_md5(packet: &[u8], state: &[u8]) -> VerdictAnswer
    ensures { result ≡ verdict_answer (check_md5 packet.now state.now) }
{
    answer_md5::check(packet, state)
}
