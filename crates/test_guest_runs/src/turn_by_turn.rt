//! Runs turn by turn, on the serial state.

use crate::case::{Case, ending_text, undone};
use crate::guest_run::GuestRun;
use anyhow::{Result, anyhow};
use elf32_reader::read;
use sharing_report::{report, report_text};
use std::alloc::{AllocError, Global};
use test_guest_rows::Differences;
use token::{Kept, Next, RunOutcome, Serial, Start, Turn, TurnFault, TurnStop, next_turn};
use tracer::line;

/// More turns than a run has.
const TURNS: u32 = 10_000;

/// How it is called in a row.
const HOW: &str = "turn by turn";

/// A run's end.
#[derive(Drop)]
struct Ran {
    serial: Serial<Kept>,
    outcome: RunOutcome,
    /// What the turns sent, one after another.
    sent: Vec<u8>,
}

/// Does the next turn, or answers how the run ended.
fn take_turn(serial: &mut Serial<Kept>) -> Result<Option<RunOutcome>, TurnFault> {
    match next_turn(serial)? {
        Next::Turn(end) => {
            serial.turn(end.as_ref())?;
            Ok(None)
        }
        Next::Ended(outcome) => Ok(Some(outcome)),
    }
}

/// Runs a file turn by turn to its end.
fn run_serial(alloc: Global, case: Case<'_>) -> Result<Ran> {
    let image = read(alloc, case.file)?;
    let input = case.run.input.as_slice();
    let start = Start::open(alloc, &image, input, case.bound(), case.quantum(), None)?;
    let mut serial = start.recorded_by(Kept::new(alloc));
    let mut sent = Vec::new(alloc);
    for _ in 0..TURNS {
        if let Some(outcome) = take_turn(&mut serial).map_err(undone)? {
            return Ok(Ran {
                serial,
                outcome,
                sent,
            });
        }
        sent.extend_from_slice(serial.fresh())?;
    }
    Err(anyhow!("the run has no end"))
}

/// Whether the thread of each turn worked on a copy of the version that the definition says: the keeper and a woken thread
/// of the one before the turn, and each other of the one before the phase.
fn are_versions(turns: &[Turn]) -> bool {
    let mut last = (0, 0);
    let mut begun = 0;
    for (done, turn) in (0_u64..).zip(turns) {
        if turn.phase != last.0 {
            begun = done;
        }
        let goes_on = (turn.phase, turn.thread) == last
            || matches!(turn.stop, TurnStop::Wake { .. });
        if turn.base != (if goes_on { done } else { begun }) {
            return false;
        }
        last = (turn.phase, turn.thread);
    }
    true
}

/// Whether the changes are of the turns, one of each.
fn are_of_turns(serial: &Serial<Kept>) -> bool {
    serial.changes().len() == serial.turns().len()
        && serial.turns().iter().zip(serial.changes()).all(|(turn, change)| {
            change.phase() == turn.phase && change.thread() == turn.thread
        })
}

/// The addresses that the turns changed, turn by turn.
fn changed(alloc: Global, serial: &Serial<Kept>) -> Result<Vec<u32>, AllocError> {
    let mut addresses = Vec::new(alloc);
    for change in serial.changes() {
        addresses.extend_from_slice(change.addresses())?;
    }
    Ok(addresses)
}

/// The lines of some turns, made one by one.
fn lines_of(alloc: Global, turns: &[Turn]) -> Result<String, AllocError> {
    let mut text = String::new(alloc);
    for turn in turns {
        text.push_str(line(alloc, turn)?.as_str())?;
    }
    Ok(text)
}

/// Compares all that the turns of a run are, do and change.
pub fn compare(alloc: Global, case: Case<'_>, found: &mut Differences) -> Result<()> {
    let ran = run_serial(alloc, case)?;
    compare_turns(alloc, &ran.serial, case.run, found)?;
    Ok(compare_end(alloc, &ran, case, found)?)
}

/// Compares the lines of the turns, the versions that they worked on, the bytes that they changed, and the report on these.
fn compare_turns(
    alloc: Global,
    serial: &Serial<Kept>,
    run: &GuestRun,
    found: &mut Differences,
) -> Result<(), AllocError> {
    let trace = lines_of(alloc, serial.turns())?;
    found.expect_text(trace.as_str(), run.trace.as_str(), "trace", HOW);
    found.expect(are_versions(serial.turns()), "versions", HOW);
    found.expect(are_of_turns(serial), "changes of turns", HOW);
    let addresses = changed(alloc, serial)?;
    found.expect(addresses == run.changed, "changed bytes", HOW);
    let text = report_text(alloc, &report(alloc, serial.changes())?)?;
    found.expect_text(text.as_str(), run.report.as_str(), "report", HOW);
    Ok(())
}

/// Compares how a run ended, what it wrote and its memory then.
fn compare_end(
    alloc: Global,
    ran: &Ran,
    case: Case<'_>,
    found: &mut Differences,
) -> Result<(), AllocError> {
    let run = case.run;
    let ending = ending_text(alloc, ran.outcome)?;
    found.expect_text(ending.as_str(), run.ending.as_str(), "ending", HOW);
    found.expect(run.output.is(ran.serial.output()), "output", HOW);
    found.expect(run.output.is(&ran.sent), "pieces of the output", HOW);
    found.expect(case.is_memory(ran.serial.now()), "memory", HOW);
    Ok(())
}
