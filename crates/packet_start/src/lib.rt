// What every packet is refused with for its beginning.
#![tactic(auto)]

ghost use Rattle.std.specs.Prelude.{◌≡◌};
ghost use Rattle.header.specs.Start.{start_octets, start_refusal, type_refusal, file_refusal};
ghost use Rattle.refusals.specs.Faults.{refused};

use refusals::Fault;

// Where the first word ends, and where the Id.
const WORD_END: usize = 4;

const ID_END: usize = 8;

// How many octets a packet needs, by its first word: a BEACON can be that word alone, all others have an Id.
fn start_octets(w: u64) -> usize
    ensures { result ≡ start_octets w }
{
    let h = first_word::split(w);
    if h.mark != 1 {
        return ID_END;
    }
    if h.ptype == 0 {
        return WORD_END;
    }
    ID_END
}

// Refusals 2, 1, 3 of any packet.
#[tactic(auto, using(header::proofs::StartLaws::start_between), unfolding(header::specs::Start::start_refusal))]
pub fn start_refusal(p: &[u8]) -> Result<(), Fault>
    ensures { refused result ≡ start_refusal p.now }
{
    if 65535 < p.len() {
        return Err(Fault::Long);
    }
    if p.len() < WORD_END {
        return Err(Fault::Short);
    }
    let w = first_word::word(p);
    if p.len() < start_octets(w) {
        return Err(Fault::Short);
    }
    let h = first_word::split(w);
    if h.mark != 1 {
        return Err(Fault::Version);
    }
    Ok(())
}

// Refusals 2, 1, 3, 4 of a packet that has to be of type `ptype`.
#[tactic(auto, using(header::proofs::StartLaws::start_word), unfolding(header::specs::Start::type_refusal))]
pub fn type_refusal(p: &[u8], ptype: u64) -> Result<(), Fault>
    ensures { refused result ≡ type_refusal ptype p.now }
{
    start_refusal(p)?;
    let h = first_word::split(first_word::word(p));
    if h.ptype != ptype {
        return Err(Fault::OtherType);
    }
    Ok(())
}

// Refusal 6 of the first word, or the flags, of METADATA and DATA.
#[tactic(auto, unfolding(header::specs::Start::file_refusal))]
pub fn file_refusal(w: u64) -> Result<(), Fault>
    ensures { refused result ≡ file_refusal w }
{
    let h = first_word::split(w);
    if h.kind != 0 {
        return Err(Fault::NotAFile);
    }
    Ok(())
}
