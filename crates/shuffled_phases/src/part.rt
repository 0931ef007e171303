//! Which of the threads that have a turn take part in a phase. It takes no memory.
ghost use Rattle.std.specs.Prelude.{◌≡◌, ◌^◌, ◌<◌, ◌≤◌, length, filter};
ghost use Rattle.abi.specs.Limits as limit;
ghost use Rattle.shuffled_phases.specs.Lists as spec;

use crate::draws::draw;
use crate::order::{block_of, ordered};
use thread_table::ThreadNumbers;

/// Which of the threads that have a turn take part in the phases of a number.
#[derive(Clone, Copy, Debug, PartialEq, Eq)]
pub enum Part {
    /// All of them.
    All,
    /// The first, and about half of the others, drawn for each block of phases.
    Even,
    /// Each in all phases, or in about one of 4, 16 or 64. The first, if nobody else does.
    Paced,
    /// The first.
    First,
}

/// The list of a phase, as a number draws it from the threads that have a turn.
#[tactic(auto, unfolding(crate::specs::Lists::shuffled))]
pub fn shuffled(number: u32, phase: u64, threads: &[u32]) -> ThreadNumbers
    requires room { length threads.now ≤ limit.threads }
    ensures list { result.items ≡ spec.shuffled number phase threads.now }
    ensures part { spec.IsPartOf threads.now result.items }
{
    let list = ordered(number, block_of(number, phase), threads);
    taking_part(part_of(number, phase), number, phase, list)
}

/// Which threads take part in a phase.
fn part_of(number: u32, phase: u64) -> Part
    ensures { result ≡ spec.part_of number phase }
{
    if phase % 64 == 0 {
        return Part::All;
    }
    match draw(number, 3, 0, 0) % 4 {
        0 => Part::All,
        1 => Part::Even,
        2 => Part::Paced,
        _ => Part::First,
    }
}

/// Those of an ordered list that take part.
fn taking_part(part: Part, number: u32, phase: u64, mut list: ThreadNumbers) -> ThreadNumbers
    requires room { length list.items ≤ limit.threads }
    ensures { result.items ≡ spec.taking_part part number phase list.items }
{
    match part {
        Part::All => list,
        Part::Even => first_and_even(number, phase, list.as_slice()),
        Part::Paced => else_first(paced(number, phase, list.as_slice()), list),
        Part::First => {
            list.truncate(1);
            list
        }
    }
}

/// The first of a list, and the others that take part by a draw of the block.
fn first_and_even(number: u32, phase: u64, list: &[u32]) -> ThreadNumbers
    requires room { length list.now ≤ limit.threads }
    ensures { result.items ≡ spec.first_and (spec.is_even number phase) list.now }
{
    if list.is_empty() {
        return ThreadNumbers::new();
    }
    let mut part = even(number, phase, &list[1..]);
    part.insert(0, list[0]);
    part
}

/// Those that take part by a draw of the block.
fn even(number: u32, phase: u64, list: &[u32]) -> ThreadNumbers
    requires room { length list.now ≤ limit.threads }
    ensures part { result.items ≡ filter (spec.is_even number phase) list.now }
    ensures len { length result.items ≤ length list.now }
{
    let mut part = ThreadNumbers::new();
    for thread in list {
        if is_even(number, phase, *thread) {
            part.push(*thread);
        }
    }
    part
}

/// Those whose time it is.
fn paced(number: u32, phase: u64, list: &[u32]) -> ThreadNumbers
    requires room { length list.now ≤ limit.threads }
    ensures { result.items ≡ filter (spec.is_its_time number phase) list.now }
{
    let mut part = ThreadNumbers::new();
    for thread in list {
        if is_its_time(number, phase, *thread) {
            part.push(*thread);
        }
    }
    part
}

/// A part of a list, or if it is empty, the list's first.
fn else_first(part: ThreadNumbers, mut list: ThreadNumbers) -> ThreadNumbers
    ensures { result.items ≡ spec.else_first list.items part.items }
{
    if part.is_empty() {
        list.truncate(1);
        list
    } else {
        part
    }
}

/// Whether a thread takes part by a draw of the block.
fn is_even(number: u32, phase: u64, thread: u32) -> bool
    ensures { result ≡ spec.is_even number phase thread }
{
    draw(number, 4, block_of(number, phase), thread as u64) % 2 == 0
}

/// Whether one takes part that does so in one of 1, 4, 16 or 64 phases.
fn is_its_time(number: u32, phase: u64, thread: u32) -> bool
    ensures { result ≡ spec.is_its_time number phase thread }
{
    let pace = four_to(draw(number, 5, thread as u64, 0) % 4);
    draw(number, 6, phase, thread as u64) % pace == 0
}

/// A power of four.
fn four_to(exponent: u64) -> u64
    requires { exponent < 4 }
    ensures power { result ≡ 4 ^ exponent }
    ensures some { 0 < result }
{
    4u64.pow(exponent as u32)
}
