// The blocks of a message, one after the other.
#![tactic(auto)]

ghost use Rattle.std.specs.Prelude.{◌≡◌};
ghost use Rattle.md5_blocks.specs.Md5.{after_block, run};

// The words after one block.
#[tactic(auto, unfolding(crate::specs::Md5::after_block))]
fn after_block(v: [u32; 4], block: &[u8; 64]) -> [u32; 4]
    ensures { result ≡ after_block v block.now }
{
    md5_rounds::compress(v, md5_words::decode(block))
}

// The words after every whole block.
pub fn run_blocks(v: [u32; 4], s: &[u8]) -> [u32; 4]
    ensures { result ≡ run v s.now }
{
    let (whole, _) = s.as_chunks::<64>();
    whole.iter().fold(v, after_block)
}
