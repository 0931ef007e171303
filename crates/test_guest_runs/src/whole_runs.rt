//! Whole runs by the run time, with few and with many workers.

use crate::case::{Case, ending_text};
use crate::sharing_gate::SharingGate;
use anyhow::{Result, anyhow};
use runtime::{Config, Gate, OpenGate, Report, run};
use sharing_report::report_text;
use std::alloc::{AllocError, Global};
use std::sync::Wait;
use std::thread::Threads;
use test_guest_rows::Differences;
use tracer::trace_text;

/// The numbers of workers that each run is made with.
const WORKERS: [u32; 5] = [1, 2, 3, 4, 64];

/// Compares the report of a run with each number of workers, and with four that share no short phase.
pub fn compare(
    rt: &(impl Threads + Wait + Sync),
    alloc: Global,
    case: Case<'_>,
    found: &mut Differences,
) -> Result<()> {
    for workers in WORKERS {
        let report = report_of(rt, alloc, case, workers, &SharingGate)?;
        let how = format!(in alloc; "with {workers} workers")?;
        compare_report(alloc, case, &report, how.as_str(), found)?;
    }
    let report = report_of(rt, alloc, case, 4, &OpenGate)?;
    Ok(compare_report(alloc, case, &report, "with 4 workers on call", found)?)
}

/// Compares the report of a run with four workers.
pub fn compare_once(
    rt: &(impl Threads + Wait + Sync),
    alloc: Global,
    case: Case<'_>,
    found: &mut Differences,
) -> Result<()> {
    let report = report_of(rt, alloc, case, 4, &SharingGate)?;
    Ok(compare_report(alloc, case, &report, "with 4 workers", found)?)
}

/// The report of a run with so many workers.
fn report_of(
    rt: &(impl Threads + Wait + Sync),
    alloc: Global,
    case: Case<'_>,
    workers: u32,
    gate: &(impl Gate + Sync),
) -> Result<Report> {
    let config = Config {
        bound: case.bound(),
        quantum: case.quantum(),
        shuffle: None,
        workers,
    };
    match run(rt, alloc, case.file, &case.run.input, &config, gate) {
        Ok(report) => Ok(report),
        Err(fault) => Err(anyhow!("{fault}")),
    }
}

/// Compares the report of a run.
fn compare_report(
    alloc: Global,
    case: Case<'_>,
    report: &Report,
    how: &str,
    found: &mut Differences,
) -> Result<(), AllocError> {
    let wanted = case.run;
    let trace = trace_text(alloc, &report.trace)?;
    found.expect_text(trace.as_str(), wanted.trace.as_str(), "trace", how);
    let sharing = report_text(alloc, &report.sharing)?;
    found.expect_text(sharing.as_str(), wanted.report.as_str(), "report", how);
    let ending = ending_text(alloc, report.outcome)?;
    found.expect_text(ending.as_str(), wanted.ending.as_str(), "ending", how);
    found.expect(wanted.output.is(&report.output), "output", how);
    found.expect(case.is_memory(&report.memory), "memory", how);
    Ok(())
}
