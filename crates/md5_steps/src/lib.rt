// One step of MD5: the four words after it, by value.
#![tactic(auto)]

ghost use Rattle.std.specs.Prelude.{◌≡◌, ◌<◌, ℕ};
ghost use Rattle.md5_steps.specs.Steps.{mix_f, mix_g, mix_h, mix_i, turned, step};

// The function of a round.
pub trait Mix {
    ghost mixed: { ℕ → ℕ → ℕ → ℕ };

    fn mix(x: u32, y: u32, z: u32) -> u32
        ensures { result ≡ mixed x y z };
}

pub struct First;

pub struct Second;

pub struct Third;

pub struct Fourth;

// y's bit where x has a 1, and elsewhere z's: by two operations once x is known, which the definition's way would not be.
impl Mix for First {
    ghost mixed = { mix_f };

    #[tactic(auto, using(crate::proofs::ChooseLaws::choose_is), unfolding(crate::specs::Steps::mix_f))]
    fn mix(x: u32, y: u32, z: u32) -> u32 {
        z ^ (x & (y ^ z))
    }
}

impl Mix for Second {
    ghost mixed = { mix_g };

    #[tactic(auto, unfolding(crate::specs::Steps::mix_g))]
    fn mix(x: u32, y: u32, z: u32) -> u32 {
        (x & z) | (y & !z)
    }
}

impl Mix for Third {
    ghost mixed = { mix_h };

    #[tactic(auto, unfolding(crate::specs::Steps::mix_h))]
    fn mix(x: u32, y: u32, z: u32) -> u32 {
        x ^ y ^ z
    }
}

impl Mix for Fourth {
    ghost mixed = { mix_i };

    #[tactic(auto, unfolding(crate::specs::Steps::mix_i))]
    fn mix(x: u32, y: u32, z: u32) -> u32 {
        y ^ (x | !z)
    }
}

// The new word of a step. f comes last into the sum: it is the one that is waited for.
#[tactic(auto, using(crate::proofs::StepLaws::turned_is))]
fn turn(a: u32, b: u32, f: u32, x: u32, t: u32, s: u32) -> u32
    requires { (0 < s) × (s < 32) }
    ensures { result ≡ turned a b f x t s }
{
    let sum = a.wrapping_add(x.wrapping_add(t)).wrapping_add(f);
    b.wrapping_add(sum.rotate_left(s))
}

// A step of a round. The round is a type: so each step is inlined without a test of which round it is.
#[tactic(auto, using(crate::proofs::StepLaws::stepped))]
pub fn step<M: Mix>(v: [u32; 4], x: u32, t: u32, s: u32) -> [u32; 4]
    requires { (0 < s) × (s < 32) }
    ensures { result ≡ step M.mixed v x t s }
{
    let [a, b, c, d] = v;
    [d, turn(a, b, M::mix(b, c, d), x, t, s), b, c]
}
