//! The draws of a number: stateless, so that whoever looks at any phase draws the same.
#![tactic(auto, unfolding(crate::specs::Draws::mix, crate::specs::Draws::draw))]

ghost use Rattle.std.specs.Prelude.{◌≡◌, ◌<◌};
ghost use Rattle.shuffled_phases.specs.Draws as spec;

/// The step and the finaliser of SplitMix64: what a generator with this state gives next.
pub fn mix(word: u64) -> u64
    ensures { result ≡ spec.mix word }
{
    let stepped = word.wrapping_add(0x9e37_79b9_7f4a_7c15);
    let once = folded(stepped, 30).wrapping_mul(0xbf58_476d_1ce4_e5b9);
    let twice = folded(once, 27).wrapping_mul(0x94d0_49bb_1331_11eb);
    folded(twice, 31)
}

/// A word xor itself shifted right.
fn folded(word: u64, bits: u32) -> u64
    requires { bits < 64 }
    ensures { result ≡ spec.folded word bits }
{
    word ^ (word >> bits)
}

/// What a number draws for two numbers, such as a phase and a thread. What is drawn has a number of its own.
pub fn draw(number: u32, what: u64, x: u64, y: u64) -> u64
    ensures { result ≡ spec.draw number what x y }
{
    mix(mix(mix(mix(number as u64) ^ what) ^ x) ^ y)
}
