//! Makes the report of a run that has ended.
ghost use Rattle.std.specs.Prelude.{◌≡◌, ◌≤◌, Some, IfOk, IfErr, length};
ghost use Rattle.abi.specs.Limits as limit;
ghost use Rattle.token.specs.Kept.{Keeps};
ghost use Rattle.token.specs.Law.{Determinism, Progress};
ghost use Rattle.token.specs.RunInTurn.{point_of};
ghost use Rattle.token.specs.Setup.{Setup};
ghost use Rattle.paged_memory.specs.Snapshot.{cells_of};
ghost use Rattle.runtime.specs.Recorded.{Ends};
ghost use Rattle.runtime.specs.Reports.{Reports};

use crate::report::Report;
use crate::run_end::RunEnd;
use std::alloc::{AllocError, Global};
use thread_table::{Thread, Threads};
use token::{Kept, Recorder, RunOutcome, Serial};

/// What a run left that ended so.
pub(crate) fn end_of<K: Recorder>(
    alloc: Global,
    serial: &Serial<K>,
    outcome: RunOutcome,
) -> Result<RunEnd, AllocError>
    ensures outcome { IfOk result (λ end. end.outcome ≡ outcome) }
    ensures output { IfOk result (λ end. end.output.items ≡ (point_of serial.now).state.output) }
    ensures memory { IfOk result (λ end. cells_of end.memory ≡ (point_of serial.now).state.memory) }
    ensures threads { IfOk result (λ end. end.threads.items ≡ (point_of serial.now).state.threads) }
    ensures few { IfOk result (λ end. length end.threads.items ≤ limit.threads) }
{
    Ok(RunEnd {
        outcome,
        output: Vec::from_slice(alloc, serial.output())?,
        memory: serial.now().try_clone()?,
        threads: all_of(alloc, serial.threads())?,
    })
}

/// All threads of a table, by their numbers.
fn all_of(alloc: Global, threads: &Threads) -> Result<Vec<Thread>, AllocError>
    ensures all { IfOk result (λ all. all.items ≡ threads.now) }
    ensures few { length threads.now ≤ limit.threads }
{
    let mut all = Vec::with_capacity(alloc, threads.len())?;
    for number in 0..threads.len() as u32 {
        all.push(*threads.get(number))?;
    }
    Ok(all)
}

/// The report of a run with this end, whose turns and changes were kept.
pub(crate) fn report(alloc: Global, end: RunEnd, kept: Kept) -> Result<Report, AllocError>
    ensures report { IfOk result (λ report. (setup : Setup) → Ends Keeps setup end kept → Reports setup report) }
    ensures output { IfOk result (λ report. report.output.items ≡ end.output.items) }
{
    let sharing = sharing_report::report(alloc, kept.changes())?;
    Ok(Report {
        outcome: end.outcome,
        output: end.output,
        memory: end.memory,
        trace: kept.into_turns(),
        sharing,
    })
}
