// The line of each answer. Each starts with the number of its record.
#![tactic(auto)]

ghost use Rattle.std.specs.Prelude.{◌≤◌, length};
ghost use Rattle.text.specs.Added.{Added};
ghost use Rattle.replay_lines.specs.Lines.{plain_line, refused_line, close_line, octets_line, unknown_line, opened_line, record_line};
ghost use Rattle.replay_lines.specs.Body.{bad_line};

use packet_data::Data;
use packet_metadata::Metadata;
use refusals::Refusal;
use replay_fields::{bits_of, put_field, put_number, put_octets, put_reached};
use transfer::{Reached, Receipt};

// Words alone; they end the line themselves.
#[tactic(auto, unfolding(crate::specs::Lines::plain_line))]
pub fn put_plain(out: &mut [u8], at: usize, number: u64, words: &[u8]) -> usize
    requires { at ≤ length out.old }
    ensures { Added out.old at (plain_line number words.now) out.new result }
{
    let at = text::put_decimal(out, at, number);
    text::put_text(out, at, words)
}

// A body that is not as long as its kind asks for.
pub fn put_bad_length(out: &mut [u8], at: usize, number: u64) -> usize
    requires { at ≤ length out.old }
    ensures { Added out.old at (bad_line number) out.new result }
{
    put_plain(out, at, number, b" bad length\n")
}

// A refusal.
pub fn put_refused(out: &mut [u8], at: usize, number: u64, x: Refusal) -> usize
    requires { at ≤ length out.old }
    ensures { Added out.old at (refused_line number x) out.new result }
{
    let at = text::put_decimal(out, at, number);
    let at = put_field(out, at, b" refused ", x.number);
    let at = put_field(out, at, b" code=", x.code);
    text::push(out, at, b'\n')
}

// A transfer closed.
pub fn put_closed(out: &mut [u8], at: usize, number: u64, id: u64) -> usize
    requires { at ≤ length out.old }
    ensures { Added out.old at (close_line number id) out.new result }
{
    let at = text::put_decimal(out, at, number);
    let at = put_field(out, at, b" close id=", id);
    text::push(out, at, b'\n')
}

// A word and octets: a STATUS that was written, or is to be sent.
#[tactic(auto, unfolding(crate::specs::Lines::octets_line))]
pub fn put_packet(out: &mut [u8], at: usize, number: u64, word: &[u8], s: &[u8]) -> usize
    requires { at ≤ length out.old }
    ensures { Added out.old at (octets_line number word.now s.now) out.new result }
{
    let at = text::put_decimal(out, at, number);
    let at = put_octets(out, at, word, s);
    text::push(out, at, b'\n')
}

// A kind of record that there is not.
pub fn put_unknown(out: &mut [u8], at: usize, number: u64, kind: u64) -> usize
    requires { at ≤ length out.old }
    ensures { Added out.old at (unknown_line number kind) out.new result }
{
    let at = text::put_decimal(out, at, number);
    let at = put_number(out, at, b" unknown kind ", 1, kind);
    text::push(out, at, b'\n')
}

// A transfer opened, by METADATA m; `last` says whether it is new, and ends the line.
pub fn put_opened(
    out: &mut [u8],
    at: usize,
    number: u64,
    m: Metadata,
    x: Reached,
    last: &[u8],
) -> usize
    requires { at ≤ length out.old }
    ensures { Added out.old at (opened_line number m x last.now) out.new result }
{
    let at = text::put_decimal(out, at, number);
    let at = put_field(out, at, b" open id=", m.id);
    let at = put_field(out, at, b" width=", bits_of(m.width));
    let at = put_field(out, at, b" length=", m.entry.size);
    let at = put_reached(out, at, x);
    text::put_text(out, at, last)
}

// DATA d recorded.
pub fn put_recorded(out: &mut [u8], at: usize, number: u64, d: Data, x: Receipt) -> usize
    requires { at ≤ length out.old }
    ensures { Added out.old at (record_line number d x) out.new result }
{
    let at = text::put_decimal(out, at, number);
    let at = put_field(out, at, b" record id=", d.id);
    let at = put_field(out, at, b" offset=", d.offset);
    let at = put_field(out, at, b" length=", d.length as u64);
    let at = put_reached(out, at, x.reached);
    let at = put_field(out, at, b" absorbed=", x.absorbed);
    text::push(out, at, b'\n')
}
