// The records of a pass, read one by one, and the answer to each written.
#![tactic(auto)]

ghost use Rattle.std.specs.Prelude.{◌≡◌, IsTrue};
ghost use Rattle.std.specs.Io.KnownBytes.{Appends};
ghost use Rattle.replay_merge.specs.MergeLines.{chosen_after};
ghost use Rattle.replay_steps.specs.Records.{record_lines, chosen_of, other_of, zero_after, one_after};
ghost use Rattle.replay_steps.specs.Room.{Room};

use replay_input::Input;
use std::io::{Read, Write};

// Whether to go on, and which table is chosen then.
#[derive(Clone, Copy)]
struct Next {
    on: bool,
    chosen: u8,
}

// The last line, of a record inside which the input ends.
fn cut_short<W: Write>(output: &mut W, number: u64, out: &mut [u8]) {
    let size = replay_steps::cut_short(number, out);
    let _ = output.write_all(&out[..size]);
}

// Writes the lines of one record, and goes on where they were written.
fn tell<W: Write>(
    output: &mut W,
    number: u64,
    chosen: u8,
    zero: &mut [u8],
    one: &mut [u8],
    kind: u8,
    body: &[u8],
    lent: &mut [u8],
    out: &mut [u8],
) -> Next
    requires { Room body.now lent.old out.old }
    ensures written { IsTrue result.on → Appends (W.contents output.old) (W.contents output.new)
        (record_lines number kind body.now (chosen_of chosen zero.old one.old) (other_of chosen zero.old one.old) lent.old) }
    ensures zero { zero.new ≡ zero_after chosen kind body.now zero.old one.old }
    ensures one { one.new ≡ one_after chosen kind body.now zero.old one.old }
    ensures chosen { result.chosen ≡ chosen_after kind body.now chosen }
{
    let size = replay_steps::answer(zero, one, chosen, number, kind, body, lent, out);
    Next {
        on: output.write_all(&out[..size]).is_ok(),
        chosen: replay_merge::chosen_after(kind, body, chosen),
    }
}

// Answers one record.
fn step<R: Read, W: Write>(
    input: &mut R,
    output: &mut W,
    number: u64,
    chosen: u8,
    zero: &mut [u8],
    one: &mut [u8],
    body: &mut [u8],
    lent: &mut [u8],
    out: &mut [u8],
) -> Next
    requires { Room body.old lent.old out.old }
{
    let end = Next { on: false, chosen };
    match replay_input::next(input, body) {
        Input::End => end,
        Input::CutShort => {
            cut_short(output, number, out);
            end
        }
        Input::Record(kind, n) => {
            tell(
                output,
                number,
                chosen,
                zero,
                one,
                kind,
                &body[..n],
                lent,
                out,
            )
        }
    }
}

// A proved loop has to end, and nothing says that the input does. So the records are counted, up to a number that no input reaches.
pub fn replay<R: Read, W: Write>(
    input: &mut R,
    output: &mut W,
    zero: &mut [u8],
    one: &mut [u8],
    body: &mut [u8],
    lent: &mut [u8],
    out: &mut [u8],
)
    requires { Room body.old lent.old out.old }
{
    let _ = area_fresh::fresh(zero); // 20 alone is refused, and both are long enough
    let _ = area_fresh::fresh(one);
    let mut next = Next {
        on: true,
        chosen: 0,
    };
    for number in 1..u64::MAX {
        if !next.on {
            break;
        }
        next = step(
            input,
            output,
            number,
            next.chosen,
            zero,
            one,
            body,
            lent,
            out,
        );
    }
}
