//! A run with the file that it is of, and how it ended as the data say it.
ghost use Rattle.std.specs.Prelude.{◌<◌, ◌≤◌, ◌^◌, IfSome};

use crate::guest_run::GuestRun;
use anyhow::anyhow;
use paged_memory::Snapshot;
use runtime::{MAX_BOUND, RunOutcome};
use std::alloc::{AllocError, Global};
use token::TurnFault;

/// A run, and the file that it is of.
#[derive(Clone, Copy)]
pub struct Case<'a> {
    pub run: &'a GuestRun,
    pub file: &'a [u8],
}

impl Case<'_> {
    /// How many instructions a thread may execute.
    pub fn bound(self) -> u64
        ensures most { result ≤ 2 ^ 40 }
        ensures some { 0 < result }
    {
        limit(self.run.bound)
    }

    /// How many a thread executes at most between two synchronisations, where the run has a quantum.
    pub fn quantum(self) -> Option<u64>
        ensures most { IfSome result (λ quantum. quantum ≤ 2 ^ 40) }
        ensures some { IfSome result (λ quantum. 0 < quantum) }
    {
        match self.run.quantum {
            None => None,
            given => Some(limit(given)),
        }
    }

    /// Whether a memory at the end has the bytes that it must have.
    pub fn is_memory(self, memory: &Snapshot) -> bool {
        self.run
            .memory
            .iter()
            .all(|(address, byte)| memory.byte(*address) == *byte)
    }
}

/// A limit of a run, or the greatest there is where it isn't given.
fn limit(given: Option<u64>) -> u64
    ensures most { result ≤ 2 ^ 40 }
    ensures some { 0 < result }
{
    given.unwrap_or(MAX_BOUND).clamp(1, MAX_BOUND)
}

/// How a run ended, as the files in `data/` say it.
pub fn ending_text(alloc: Global, outcome: RunOutcome) -> Result<String, AllocError> {
    match outcome {
        RunOutcome::Exit(status) => format!(in alloc; "exit {status}"),
        RunOutcome::Finished(value) => format!(in alloc; "finished {value}"),
        RunOutcome::Deadlock => String::from_str(alloc, "deadlock"),
        RunOutcome::Trap { thread, pc, trap } => {
            let cause = trap.cause.number();
            let value = trap.value;
            format!(in alloc; "trap thread={thread} pc={pc:08x} cause={cause} value={value:08x}")
        }
    }
}

/// The error of a turn that isn't done.
pub fn undone(fault: TurnFault) -> anyhow::Error {
    match fault {
        TurnFault::OutOfMemory => anyhow!("out of memory"),
        TurnFault::WriteFailed => anyhow!("a record isn't written"),
    }
}
