// A pass is replayed: the two tables, and the buffers that its records share.
#![tactic(auto)]

ghost use Rattle.std.specs.Prelude.{◌≡◌, length};

use std::io::{Read, Write};

// A buffer of N octets. A proof takes its length from here: to count out an array of half a million would take a gigabyte.
fn buffer<const N: usize>() -> [u8; N]
    ensures { length result ≡ N }
{
    [0; N]
}

// Of a body the pieces of a `K` are kept, and of a packet one octet more than it may have, so that the reader itself refuses what is too
// long.
pub fn run<R: Read, W: Write>(input: &mut R, output: &mut W) {
    let mut zero: [u8; area::AREA_OCTETS] = buffer();
    let mut one: [u8; area::AREA_OCTETS] = buffer();
    let mut body: [u8; 131088] = buffer();
    let mut lent: [u8; 65535] = buffer();
    let mut out: [u8; 524288] = buffer();
    replay_loop::replay(
        input, output, &mut zero, &mut one, &mut body, &mut lent, &mut out,
    );
}
