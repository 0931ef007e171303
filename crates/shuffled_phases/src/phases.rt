//! What a shuffle makes of a phase, and what a phase is without one.
ghost use Rattle.std.specs.Prelude.{◌≡◌};
ghost use Rattle.shuffled_phases.specs.Phases as spec;

use crate::lengths::drawn_length;
use crate::part::shuffled;
use crate::shuffle::Shuffle;
use thread_table::{ThreadNumbers, Threads};

/// What thread 0 finds in x10 at the start: the number, or 0.
pub fn number_at_start(shuffle: Option<Shuffle>) -> u32
    ensures { result ≡ spec.number_at_start shuffle }
{
    match shuffle {
        Some(shuffle) => shuffle.number,
        None => 0,
    }
}

/// What thread 0 finds in x11 at the start: how many choices the program makes by the number, or 0.
pub fn choices_at_start(shuffle: Option<Shuffle>) -> u32
    ensures { result ≡ spec.choices_at_start shuffle }
{
    match shuffle {
        Some(shuffle) => shuffle.choices,
        None => 0,
    }
}

/// Fills the list of a phase that begins with these threads, in place of what it had: those that have a turn, ascending
/// if the phase isn't shuffled.
#[tactic(auto, unfolding(crate::specs::Phases::list_of))]
pub fn fill_list(shuffle: Option<Shuffle>, phase: u64, threads: &Threads, list: &mut ThreadNumbers)
    ensures { list.new.items ≡ spec.list_of shuffle phase threads.now }
{
    threads.fill_serial_list(list);
    if let Some(number) = number_in(shuffle, phase) {
        *list = shuffled(number, phase, list.as_slice());
    }
}

/// After how many instructions a thread's fresh segment ends at the latest, in a phase that begins with these threads: the
/// quantum, if the phase isn't shuffled.
#[tactic(auto, unfolding(crate::specs::Phases::quantum_of))]
pub fn quantum_of(
    shuffle: Option<Shuffle>,
    quantum: Option<u64>,
    phase: u64,
    thread: u32,
    threads: &Threads,
) -> Option<u64>
    ensures { result ≡ spec.quantum_of shuffle quantum phase thread threads.now }
{
    match length_in(shuffle, phase, thread, threads) {
        Some(length) => Some(lesser(quantum, length)),
        None => quantum,
    }
}

/// The number by which a phase is shuffled.
fn number_in(shuffle: Option<Shuffle>, phase: u64) -> Option<u32>
    ensures { result ≡ spec.number_in shuffle phase }
{
    match shuffle {
        Some(shuffle) if shuffle.first <= phase && phase <= shuffle.last => Some(shuffle.number),
        _ => None,
    }
}

/// The length that is drawn for a thread's segment, none if the thread alone has a turn.
fn length_in(shuffle: Option<Shuffle>, phase: u64, thread: u32, threads: &Threads) -> Option<u64>
    ensures { result ≡ spec.length_in shuffle phase thread threads.now }
{
    let number = number_in(shuffle, phase)?;
    if threads.serial_list().len() == 1 {
        return None;
    }
    drawn_length(number, phase, thread)
}

/// The lesser of a quantum and a length.
fn lesser(quantum: Option<u64>, length: u64) -> u64
    ensures { result ≡ spec.lesser quantum length }
{
    match quantum {
        Some(quantum) => quantum.min(length),
        None => length,
    }
}
