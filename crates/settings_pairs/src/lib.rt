// One pair of a settings file, read: a key and its value (R18.6).
#![tactic(auto)]

ghost use Rattle.std.specs.Prelude.{◌≡◌, ◌+◌, ◌≤◌, IfOk, length, drop};
ghost use Rattle.refusals.specs.Faults.{refused};
ghost use Rattle.settings_pairs.specs.Pairs.{pair_refusal, pair_in};

use refusals::Fault;

// A pair that was read: key, value and how many octets it has.
#[derive(Clone, Copy)]
pub struct Pair {
    pub key: u64,
    pub value: u64,
    pub size: usize,
}

// Reads the pair that begins at `at`, in a file of this version and after a pair with the key `last`. Refusals 1 and 25.
#[tactic(auto, using(crate::proofs::PairLaws::after_number), unfolding(crate::specs::Pairs::pair_refusal))]
pub fn read_pair(file: &[u8], at: usize, version: u64, last: u64) -> Result<Pair, Fault>
    requires { at ≤ length file.now }
    ensures refusal { refused result ≡ pair_refusal version last (drop at file.now) }
    ensures pair { IfOk result (λ p. p ≡ pair_in (drop at file.now)) }
    ensures within { IfOk result (λ p. at + p.size ≤ length file.now) }
{
    let key = varint::read(file, at)?;
    settings::key_refusal(version, last, key.value)?;
    let value = varint::read(file, at + key.size)?;
    settings::value_refusal(key.value, value.value)?;
    Ok(Pair {
        key: key.value,
        value: value.value,
        size: key.size + value.size,
    })
}
