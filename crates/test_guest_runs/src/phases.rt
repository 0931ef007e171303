//! Runs phase by phase.

use crate::case::Case;
use anyhow::Result;
use elf32_reader::read;
use runtime::OpenGate;
use std::alloc::Global;
use std::sync::Wait;
use std::thread::Threads;
use test_guest_rows::Differences;
use test_run_ways::trace_of;
use token::Start;

/// The numbers of workers that each run is made with.
const WORKERS: [u32; 3] = [1, 2, 64];

/// How many instructions a thread may execute here, if its run allows more: more than any of these runs needs. A phase whose
/// run ends still waits for the jobs that were begun, and one of them may be endless.
const ENOUGH: u64 = 20_000_000;

/// Compares the trace of a run whose phases are done one by one.
pub fn compare(
    rt: &(impl Threads + Wait + Sync),
    alloc: Global,
    case: Case<'_>,
    found: &mut Differences,
) -> Result<()> {
    let image = read(alloc, case.file)?;
    let run = case.run;
    let bound = case.bound().min(ENOUGH);
    for workers in WORKERS {
        let start = Start::open(alloc, &image, &run.input, bound, case.quantum(), None)?;
        let trace = trace_of(rt, alloc, start, workers, &OpenGate)?;
        let how = format!(in alloc; "phase by phase with {workers} workers")?;
        found.expect_text(trace.as_str(), run.trace.as_str(), "trace", how.as_str());
    }
    Ok(())
}
