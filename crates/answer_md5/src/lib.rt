// An MD5 in parts, and the verdict on METADATA.
#![tactic(auto)]

ghost use Rattle.std.specs.Prelude.{◌≡◌};
ghost use Rattle.refusals.specs.Faults.{refused};
ghost use Rattle.md5_state.specs.State.{state_refusal};
ghost use Rattle.md5_feed.specs.Feed.{begin_state, add_state};
ghost use Rattle.md5_digest.specs.End.{digest_written, digest_buffer};
ghost use Rattle.md5_verdict.specs.Verdict.{check_md5};
ghost use Rattle.answers.specs.Answers.{written_answer};
ghost use Rattle.answer_md5.specs.Md5Answers.{feed_answer, verdict_answer};

use answer_table::DoneAnswer;
use answers::WrittenAnswer;
use md5_verdict::Verdict;
use refusals::{Fault, Refusal};

// struct saratoga_verdict.
#[repr(C)]
#[derive(Clone, Copy)]
pub struct VerdictAnswer {
    pub number: u64,
    pub code: u64,
    pub verdict: u64,
}

#[tactic(auto, unfolding(refusals::specs::Refusals::code_of))]
fn feed_answer(a: Result<(), Fault>) -> DoneAnswer
    ensures { result ≡ feed_answer (refused a) }
{
    match a {
        Ok(()) => DoneAnswer { number: 0, code: 0 },
        Err(fault) => DoneAnswer {
            number: fault.number(),
            code: Refusal::from(fault).code,
        },
    }
}

fn verdict_answer(a: Result<Verdict, Refusal>) -> VerdictAnswer
    ensures { result ≡ verdict_answer a }
{
    match a {
        Ok(verdict) => VerdictAnswer {
            number: 0,
            code: 0,
            verdict: verdict as u64,
        },
        Err(refusal) => VerdictAnswer {
            number: refusal.number,
            code: refusal.code,
            verdict: 0,
        },
    }
}

pub fn begin(state: &mut [u8]) -> DoneAnswer
    ensures { (result ≡ feed_answer (state_refusal state.old)) × (state.new ≡ begin_state state.old) }
{
    feed_answer(md5_feed::begin(state))
}

pub fn add(state: &mut [u8], part: &[u8]) -> DoneAnswer
    ensures { (result ≡ feed_answer (state_refusal state.old))
        × (state.new ≡ add_state state.old part.now) }
{
    feed_answer(md5_feed::add(state, part))
}

pub fn end(state: &[u8], digest: &mut [u8]) -> WrittenAnswer
    ensures { (result ≡ written_answer (digest_written state.now digest.old))
        × (digest.new ≡ digest_buffer state.now digest.old) }
{
    answers::written_answer(md5_digest::end(state, digest))
}

pub fn check(packet: &[u8], state: &[u8]) -> VerdictAnswer
    ensures { result ≡ verdict_answer (check_md5 packet.now state.now) }
{
    verdict_answer(md5_verdict::check(packet, state))
}
