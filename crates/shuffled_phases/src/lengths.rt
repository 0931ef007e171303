//! After how many instructions a fresh segment ends at the latest, as a number draws it.
ghost use Rattle.std.specs.Prelude.{◌≡◌, ◌+◌, ◌^◌, ◌<◌, ◌≤◌, IfSome};
ghost use Rattle.shuffled_phases.specs.Lengths as spec;

use crate::draws::draw;

/// After how many instructions a thread's fresh segment in a phase ends at the latest, below 2^16, or none.
#[tactic(auto, unfolding(crate::specs::Lengths::drawn_length))]
pub fn drawn_length(number: u32, phase: u64, thread: u32) -> Option<u64>
    ensures drawn { result ≡ spec.drawn_length number phase thread }
    ensures some { IfSome result (λ length. 0 < length) }
{
    let most_bits = most_bits(number);
    if most_bits == 0 || draw(number, 9, phase, thread as u64) % rarity(number) != 0 {
        return None;
    }
    let bits = draw(number, 10, phase, thread as u64) % most_bits;
    Some(length_of(bits, draw(number, 11, phase, thread as u64)))
}

/// A length has fewer bits than this, and there is none if that is 0.
fn most_bits(number: u32) -> u64
    ensures bits { result ≡ spec.most_bits number }
    ensures few { result ≤ 16 }
{
    let kind = draw(number, 7, 0, 0) % 6;
    if kind < 3 { 0 } else { 4 * (kind - 1) }
}

/// All segments have a length, or one in four.
fn rarity(number: u32) -> u64
    ensures rarity { result ≡ spec.rarity number }
    ensures some { 0 < result }
{
    if draw(number, 8, 0, 0) % 2 == 0 { 1 } else { 4 }
}

/// A length of so many bits and one more.
fn length_of(bits: u64, drawn: u64) -> u64
    requires { bits < 16 }
    ensures length { result ≡ spec.length_of bits drawn }
    ensures some { 0 < result }
{
    let least = 2u64.pow(bits as u32);
    least + drawn % least
}
