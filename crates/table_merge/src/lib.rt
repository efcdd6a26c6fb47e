// Merging an Id of a second table into a first: what it answers, and what it compares; specs/ says what it means.
#![tactic(auto)]

ghost use Rattle.std.specs.Prelude.{◌≡◌};
ghost use Rattle.std.proofs.Math.Option.{some};
ghost use Rattle.table_merge.specs.Merge.{keys_refusal};
ghost use Rattle.refusals.specs.Faults.{refused};

use refusals::Fault;
use transfer::Key;

// What merging answers.
// 13 where the widths differ, then 18 where the lengths do.
#[tactic(auto, unfolding(crate::specs::Merge::keys_refusal))]
pub fn keys_refusal(first: Key, second: Key) -> Result<(), Fault>
    ensures { refused result ≡ keys_refusal (some first) (some second) }
{
    if first.width != second.width {
        return Err(Fault::OtherWidth);
    }
    if first.length != second.length {
        return Err(Fault::OtherFile);
    }
    Ok(())
}
