//! The timelines of runs whose turns are written by hand, one after the other.

mod rows;
mod step;

use anyhow::Result;
use rows::ROWS;
use std::alloc::Global;
use std::io::Write;
use step::Step;
use token::{Recorder, TurnFault};
use trace_events::TimelineRecorder;

/// Writes the name of each run and its timeline.
pub fn show_rows(rt: &HostRuntime) -> Result<()> {
    for row in &ROWS {
        println!(rt; "{}", row.name)?;
        match timeline_of(rt.alloc(), row.steps) {
            Ok(text) => rt.stdout().write_all(text.as_slice())?,
            Err(_) => println!(rt; "not written")?,
        }
    }
    Ok(())
}

/// The timeline of these turns, none of which changed anything.
fn timeline_of(alloc: Global, steps: &[Step]) -> Result<Vec<u8>, TurnFault> {
    let mut recorder = TimelineRecorder::new(alloc, Vec::new(alloc));
    for step in steps {
        recorder.prepare(None)?;
        recorder.record(step.turn());
    }
    recorder.finish()?;
    Ok(recorder.into_writer())
}
