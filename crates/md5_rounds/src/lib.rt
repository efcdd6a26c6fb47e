// The four rounds of MD5, and the words after a block.
#![tactic(auto)]

ghost use Rattle.std.specs.Prelude.{◌≡◌, ◌<◌};
ghost use Rattle.md5_rounds.specs.Rounds.{Shifts, round_by, round_of, summed, compressed};

use md5_steps::{First, Fourth, Mix, Second, Third, step};

// A round of 16 steps: its function, its shifts, the index of its first word and how far on the next one's is, and its numbers. The
// steps are written out: inlined where the numbers are literals, they have them in the instructions. In a loop they would not.
#[inline(always)]
fn round<M: Mix>(
    v: [u32; 4],
    x: [u32; 16],
    shifts: [u32; 4],
    start: usize,
    stride: usize,
    sines: [u32; 16],
) -> [u32; 4]
    requires { Shifts shifts × (start < 16) × (stride < 16) }
    ensures { result ≡ round_of (round_by M.mixed shifts start stride sines) x v }
{
    let v = step::<M>(v, x[(start + stride * 0) % 16], sines[0], shifts[0]);
    let v = step::<M>(v, x[(start + stride * 1) % 16], sines[1], shifts[1]);
    let v = step::<M>(v, x[(start + stride * 2) % 16], sines[2], shifts[2]);
    let v = step::<M>(v, x[(start + stride * 3) % 16], sines[3], shifts[3]);
    let v = step::<M>(v, x[(start + stride * 4) % 16], sines[4], shifts[0]);
    let v = step::<M>(v, x[(start + stride * 5) % 16], sines[5], shifts[1]);
    let v = step::<M>(v, x[(start + stride * 6) % 16], sines[6], shifts[2]);
    let v = step::<M>(v, x[(start + stride * 7) % 16], sines[7], shifts[3]);
    let v = step::<M>(v, x[(start + stride * 8) % 16], sines[8], shifts[0]);
    let v = step::<M>(v, x[(start + stride * 9) % 16], sines[9], shifts[1]);
    let v = step::<M>(v, x[(start + stride * 10) % 16], sines[10], shifts[2]);
    let v = step::<M>(v, x[(start + stride * 11) % 16], sines[11], shifts[3]);
    let v = step::<M>(v, x[(start + stride * 12) % 16], sines[12], shifts[0]);
    let v = step::<M>(v, x[(start + stride * 13) % 16], sines[13], shifts[1]);
    let v = step::<M>(v, x[(start + stride * 14) % 16], sines[14], shifts[2]);
    let v = step::<M>(v, x[(start + stride * 15) % 16], sines[15], shifts[3]);
    v
}

fn add_words(v: [u32; 4], w: [u32; 4]) -> [u32; 4]
    ensures { result ≡ summed v w }
{
    [
        v[0].wrapping_add(w[0]),
        v[1].wrapping_add(w[1]),
        v[2].wrapping_add(w[2]),
        v[3].wrapping_add(w[3]),
    ]
}

// The words A, B, C and D after the block of the words x.
#[tactic(auto, unfolding(crate::specs::Rounds::compressed))]
pub fn compress(v: [u32; 4], x: [u32; 16]) -> [u32; 4]
    ensures { result ≡ compressed v x }
{
    let w = round::<First>(
        v,
        x,
        [7, 12, 17, 22],
        0,
        1,
        [
            0xd76aa478, 0xe8c7b756, 0x242070db, 0xc1bdceee, 0xf57c0faf, 0x4787c62a, 0xa8304613,
            0xfd469501, 0x698098d8, 0x8b44f7af, 0xffff5bb1, 0x895cd7be, 0x6b901122, 0xfd987193,
            0xa679438e, 0x49b40821,
        ],
    );
    let w = round::<Second>(
        w,
        x,
        [5, 9, 14, 20],
        1,
        5,
        [
            0xf61e2562, 0xc040b340, 0x265e5a51, 0xe9b6c7aa, 0xd62f105d, 0x02441453, 0xd8a1e681,
            0xe7d3fbc8, 0x21e1cde6, 0xc33707d6, 0xf4d50d87, 0x455a14ed, 0xa9e3e905, 0xfcefa3f8,
            0x676f02d9, 0x8d2a4c8a,
        ],
    );
    let w = round::<Third>(
        w,
        x,
        [4, 11, 16, 23],
        5,
        3,
        [
            0xfffa3942, 0x8771f681, 0x6d9d6122, 0xfde5380c, 0xa4beea44, 0x4bdecfa9, 0xf6bb4b60,
            0xbebfbc70, 0x289b7ec6, 0xeaa127fa, 0xd4ef3085, 0x04881d05, 0xd9d4d039, 0xe6db99e5,
            0x1fa27cf8, 0xc4ac5665,
        ],
    );
    let w = round::<Fourth>(
        w,
        x,
        [6, 10, 15, 21],
        0,
        7,
        [
            0xf4292244, 0x432aff97, 0xab9423a7, 0xfc93a039, 0x655b59c3, 0x8f0ccc92, 0xffeff47d,
            0x85845dd1, 0x6fa87e4f, 0xfe2ce6e0, 0xa3014314, 0x4e0811a1, 0xf7537e82, 0xbd3af235,
            0x2ad7d2bb, 0xeb86d391,
        ],
    );
    add_words(v, w)
}
