//! Runs by picked events: whichever they are, the turns and the end are the run's.

use crate::case::{Case, ending_text};
use crate::files::guests;
use crate::guest::Guest;
use crate::guest_run::GuestRun;
use anyhow::Result;
use elf32_reader::read;
use schedule_core::World;
use std::alloc::{AllocError, Global};
use std::rt::Files;
use test_guest_rows::{Differences, show};
use test_run_ways::{Dice, walk_to_end};
use token::RunOutcome;
use tracer::trace_text;

/// The numbers of workers that each run is walked through with.
const WORKERS: [u32; 4] = [1, 2, 3, 64];

/// How many bytes the trace of a run has at most that is walked through.
const TRACE_LIMIT: usize = 1500;

/// What picks the events, and how many walks were made.
#[derive(Clone, Copy)]
pub struct Tally {
    dice: Dice,
    walks: u64,
}

impl Tally {
    /// No walk yet, and the dice of this seed.
    pub fn new(seed: u64) -> Self {
        Tally {
            dice: Dice::new(seed),
            walks: 0,
        }
    }

    /// How many walks were made.
    pub fn walks(&self) -> u64 {
        self.walks
    }
}

/// Whether a run is short enough, and its long segments are cut by its bound.
fn is_walked(case: Case<'_>) -> bool {
    case.run.trace.len() <= TRACE_LIMIT && case.run.name.as_str() != "late-trap"
}

/// Walks through a run with each number of workers, and compares turns and ends.
pub fn compare(
    alloc: Global,
    case: Case<'_>,
    tally: &mut Tally,
    found: &mut Differences,
) -> Result<()> {
    if !is_walked(case) {
        return Ok(());
    }
    for workers in WORKERS {
        walk(alloc, case, workers, tally, found)?;
    }
    Ok(())
}

/// Walks through a run with so many workers.
fn walk(
    alloc: Global,
    case: Case<'_>,
    workers: u32,
    tally: &mut Tally,
    found: &mut Differences,
) -> Result<()> {
    let how = format!(in alloc; "walked with {workers} workers and {:?}", tally.dice)?;
    let mut world = world_of(alloc, case, workers)?;
    let outcome = walk_to_end(&mut world, workers, &mut tally.dice)?;
    tally.walks = tally.walks.saturating_add(1);
    Ok(compare_walk(alloc, case.run, &world, outcome, how.as_str(), found)?)
}

/// A run of which nothing has happened.
fn world_of(alloc: Global, case: Case<'_>, workers: u32) -> Result<World> {
    let image = read(alloc, case.file)?;
    let workers = workers.clamp(1, 64);
    let input = case.run.input.as_slice();
    Ok(World::open(
        alloc,
        &image,
        input,
        case.bound(),
        case.quantum(),
        None,
        workers,
    )?)
}

/// Compares the turns and the end of a walk.
fn compare_walk(
    alloc: Global,
    run: &GuestRun,
    world: &World,
    outcome: RunOutcome,
    how: &str,
    found: &mut Differences,
) -> Result<(), AllocError> {
    let trace = trace_text(alloc, world.turns())?;
    found.expect_text(trace.as_str(), run.trace.as_str(), "trace", how);
    let ending = ending_text(alloc, outcome)?;
    found.expect_text(ending.as_str(), run.ending.as_str(), "ending", how);
    Ok(())
}

/// Walks through the short runs of all programs so many times, and prints a line for each walk that differs and one for all.
pub fn show_walks<R: AllocGlobal + Files + Print>(rt: &R, rounds: u64, seed: u64) -> Result<()> {
    let guests = guests(rt)?;
    let mut tally = Tally::new(seed);
    for _ in 0..rounds {
        for guest in &guests {
            walk_guest(rt, guest, &mut tally)?;
        }
    }
    println!(rt; "{} walks", tally.walks())?;
    Ok(())
}

/// Walks through the short runs of a program.
fn walk_guest<R: AllocGlobal + Print>(rt: &R, guest: &Guest, tally: &mut Tally) -> Result<()> {
    let file = guest.file(rt.alloc())?;
    for run in &guest.runs {
        let mut found = Differences::new(rt.alloc());
        let case = Case { run, file: &file };
        let compared = compare(rt.alloc(), case, tally, &mut found);
        if compared.is_err() || !found.text().is_empty() {
            show(rt, run.name.as_str(), compared, &found)?;
        }
    }
    Ok(())
}
