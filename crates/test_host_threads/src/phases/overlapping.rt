//! Turns of a run that are taken while later jobs of their phase run.

use crate::phases::fixtures::BOUND;
use crate::phases::overlap::Overlap;
use crate::phases::shown::show;
use anyhow::{Result, anyhow};
use data_guest_programs::{RACE, RACE_TRACE};
use elf32_reader::{Image, read};
use std::alloc::Global;
use std::rt::Clock;
use std::sync::Wait;
use std::thread::Threads;
use test_run_ways::trace_of;
use token::Start;

/// How often the run is made whose turns must overlap.
const TIMES: u32 = 100;

/// Prints the row of turns that are taken beside running jobs.
pub fn show_overlapping<R: Clock + Print + Threads + Wait + Sync>(
    rt: &R,
    alloc: Global,
) -> Result<()> {
    let file = RACE.file(alloc)?;
    let is_so = match read(alloc, &file) {
        Ok(image) => turns_overlap(rt, alloc, &image)?,
        Err(fault) => return Err(anyhow!("elf refused: {fault}")),
    };
    show(rt, "turns are taken beside running jobs", is_so)
}

/// Whether the turns of each run overlap.
fn turns_overlap<R: Clock + Threads + Wait + Sync>(
    rt: &R,
    alloc: Global,
    image: &Image,
) -> Result<bool> {
    for _ in 0..TIMES {
        if !turns_overlap_once(rt, alloc, image)? {
            return Ok(false);
        }
    }
    Ok(true)
}

/// Whether the turns of a run overlap, and its trace is as ever.
fn turns_overlap_once<R: Clock + Threads + Wait + Sync>(
    rt: &R,
    alloc: Global,
    image: &Image,
) -> Result<bool> {
    let gate = Overlap::new(rt)?;
    let start = Start::open(alloc, image, &[], BOUND, None, None)?;
    let trace = trace_of(rt, alloc, start, 2, &gate)?;
    Ok(trace.as_str() == RACE_TRACE && gate.has_met() && !gate.has_failed())
}
