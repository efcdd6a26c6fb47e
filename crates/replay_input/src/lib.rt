// The records of a pass, one after the other, as they come in.
#![tactic(auto)]

ghost use Rattle.std.specs.Prelude.{◌≡◌, ◌≤◌, length};
ghost use Rattle.replay_input.specs.Input.{body_length, kept_of};

use replay_fields::within;
use std::io::Read;

// What comes next: nothing, a record inside which the input ends, or a record with its kind and as many octets of its body as are kept.
#[derive(Clone, Copy)]
pub enum Input {
    End,
    CutShort,
    Record(u8, usize),
}

// The length of a record's body, by the five octets in front of it.
#[tactic(auto, unfolding(crate::specs::Input::body_length))]
fn body_length(head: &[u8]) -> u64
    ensures { result ≡ body_length head.now }
{
    if head.len() < 5 {
        return 0;
    }
    octets_read::read_four(head, 1)
}

// Reads until `buf` is full, the input ends or a read fails, and says how many octets it put at the start of `buf`. On an empty `buf` it
// reads nothing.
fn read_full<R: Read>(input: &mut R, buf: &mut [u8]) -> usize
    ensures { result ≤ length buf.new }
{
    let mut done = 0; // a read gives as many octets as it has: how many turns there are is not known before, so this is a `while`
    while done < buf.len() {
        match input.read(&mut buf[done..]) {
            Ok(0) | Err(_) => break,
            Ok(n) => done += n,
        }
    }
    done
}

// Passes over n octets of the input, and says whether they were there.
fn skip<R: Read>(input: &mut R, n: u64) -> bool {
    let mut left = n; // likewise
    while 0 < left {
        let mut space = [0u8; 4096]; // here, since most records skip nothing
        let room = within(left, space.len());
        let got = read_full(input, &mut space[..room]);
        if got == 0 {
            return false;
        }
        left -= got as u64;
    }
    true
}

// Reads the next record: its body into `body`, and what there is no room for is passed over. A read that fails is the end of the input.
pub fn next<R: Read>(input: &mut R, body: &mut [u8]) -> Input
    ensures { kept_of result ≤ length body.old }
{
    let mut head = [0u8; 5];
    let got = read_full(input, &mut head);
    if got == 0 {
        return Input::End;
    }
    if got < 5 {
        return Input::CutShort;
    }
    let n = body_length(&head);
    let keep = within(n, body.len());
    if read_full(input, &mut body[..keep]) < keep || !skip(input, n - keep as u64) {
        return Input::CutShort;
    }
    Input::Record(head[0], keep)
}
