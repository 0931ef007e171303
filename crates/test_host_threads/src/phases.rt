//! Draws, phases on one and on many host threads, and turns beside running jobs: whether each goes as wanted.

mod draws;
mod fates;
mod fixtures;
mod gates;
mod in_order;
mod many_hands;
mod one_thread;
mod overlap;
mod overlapping;
mod patience;
mod shown;
mod stops;
mod taking;

use anyhow::Result;
use draws::show_draws;
use in_order::show_in_order;
use many_hands::show_many_hands;
use one_thread::show_one_thread;
use overlapping::show_overlapping;
use std::alloc::Global;
use std::rt::Clock;
use std::sync::Wait;
use std::thread::Threads;
use stops::show_stops;

/// Prints a line for each row.
pub fn show_phases<R: Clock + Print + Threads + Wait + Sync>(rt: &R, alloc: Global) -> Result<()> {
    show_draws(rt, alloc)?;
    show_one_thread(rt, alloc)?;
    show_many_hands(rt, alloc)?;
    show_in_order(rt, alloc)?;
    show_overlapping(rt, alloc)?;
    show_stops(rt, alloc)
}
