// A function for each kind of record that is one operation of the receiver: it calls the operation, and its answer becomes a line.
#![tactic(auto)]

ghost use Rattle.std.specs.Prelude.{◌≡◌};
ghost use Rattle.area.specs.Operations.{open_area, record_area};
ghost use Rattle.packet.specs.Read.{read_packet};
ghost use Rattle.packet_data.specs.Data.{read_data};
ghost use Rattle.packet_metadata.specs.Metadata.{read_metadata};
ghost use Rattle.text.specs.Added.{Added};
ghost use Rattle.replay_answers.specs.AnswerLines.{open_text, record_text, read_text};
ghost use Rattle.replay_records.specs.Kinds.{fresh_lines, fresh_after, close_lines, close_after, time_lines};

use replay_answers::{put_close, put_fresh, put_open, put_read, put_record};

// `F`: makes the table fresh.
pub fn fresh(area: &mut [u8], number: u64, body: &[u8], out: &mut [u8]) -> usize
    ensures { (Added out.old 0 (fresh_lines number body.now area.old) out.new result)
        × (area.new ≡ fresh_after body.now area.old) }
{
    if body.len() != 0 {
        return replay_lines::put_bad_length(out, 0, number);
    }
    let a = area_fresh::fresh(area);
    put_fresh(out, 0, number, a)
}

// `O`: opens by a packet.
pub fn open(area: &mut [u8], number: u64, p: &[u8], out: &mut [u8]) -> usize
    ensures { (Added out.old 0 (open_text number (read_metadata p.now) (open_area area.old p.now).answer) out.new result)
        × (area.new ≡ (open_area area.old p.now).area) }
{
    let a = area_open::open(area, p);
    let m = packet_metadata::read_metadata(p);
    put_open(out, 0, number, m, a)
}

// `D`: records a packet.
pub fn record(area: &mut [u8], number: u64, p: &[u8], out: &mut [u8]) -> usize
    ensures { (Added out.old 0 (record_text number (read_data p.now) (record_area area.old p.now).answer) out.new result)
        × (area.new ≡ (record_area area.old p.now).area) }
{
    let a = area_record::record(area, p);
    let d = packet_data::read_data(p);
    put_record(out, 0, number, d, a)
}

// `R`: reads a packet.
pub fn read(number: u64, p: &[u8], out: &mut [u8]) -> usize
    ensures { Added out.old 0 (read_text number p.now (read_packet p.now)) out.new result }
{
    let r = packet::read_packet(p);
    put_read(out, 0, number, p, r)
}

// `C`: closes an Id.
pub fn close(area: &mut [u8], number: u64, body: &[u8], out: &mut [u8]) -> usize
    ensures { (Added out.old 0 (close_lines number body.now area.old) out.new result)
        × (area.new ≡ close_after body.now area.old) }
{
    if body.len() != 4 {
        return replay_lines::put_bad_length(out, 0, number);
    }
    let id = octets_read::read_four(body, 0);
    let a = area_close::close(area, id);
    put_close(out, 0, number, id, a)
}

// `W`: the time of the record after it, of which nothing is said.
pub fn time(number: u64, body: &[u8], out: &mut [u8]) -> usize
    ensures { Added out.old 0 (time_lines number body.now) out.new result }
{
    if body.len() != 8 {
        return replay_lines::put_bad_length(out, 0, number);
    }
    0
}
