//! The configuration of a run: bound, quantum, the schedule's number and workers, and whether each is in range.
ghost use Rattle.std.specs.Prelude.{◌≡◌};
ghost use Rattle.shuffled_phases.specs.Span as spec;

use crate::shuffle::Shuffle;
use abi::limits::{MAX_BOUND, MAX_WORKERS};

/// How a file is run.
#[derive(Clone, Copy, Debug, PartialEq, Eq)]
pub struct Config {
    /// How many instructions each guest thread executes at most, 1 to 2^40.
    pub bound: u64,
    /// How many instructions a thread executes at most before it synchronises, 1 to 2^40, or none.
    pub quantum: Option<u64>,
    /// The schedule's number, from 1, with the phases that it shuffles, or none.
    pub shuffle: Option<Shuffle>,
    /// How many host threads work at most, 1 to 64. It changes no answer.
    pub workers: u32,
}

impl Config {
    ghost use Rattle.shuffled_phases.specs.Config.{is_valid};

    /// Whether each number is in its range.
    #[tactic(auto, unfolding(crate::specs::Config::is_valid))]
    pub fn is_valid(&self) -> bool
        ensures { result ≡ is_valid self.now }
    {
        let quantum = match self.quantum {
            Some(quantum) => is_span(quantum),
            None => true,
        };
        let shuffle = match self.shuffle {
            Some(shuffle) => 1 <= shuffle.number,
            None => true,
        };
        is_span(self.bound)
            && quantum
            && shuffle
            && 1 <= self.workers
            && self.workers <= MAX_WORKERS
    }
}

/// Whether a number of instructions is from 1 to 2^40.
fn is_span(instructions: u64) -> bool
    ensures { result ≡ spec.is_span instructions }
{
    1 <= instructions && instructions <= MAX_BOUND
}
