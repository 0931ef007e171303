//! The rows: what of a run or a call is compared, and a line for each.

use crate::case::Case;
use crate::every_way::{Effort, compare_call, compare_run};
use crate::files::guests;
use crate::guest::Guest;
use crate::outputs::compare_outputs;
use crate::single_call::SingleCall;
use crate::walked::Tally;
use anyhow::Result;
use std::rt::Files;
use std::sync::Wait;
use std::thread::Threads;
use test_guest_rows::{Differences, is_chosen, is_named, show, text_at};

/// Prints the line of each row that is chosen: `NAME: ok`, or what differs.
pub fn show_rows<R: AllocGlobal + Files + Print + Threads + Wait + Sync>(
    rt: &R,
    effort: Effort,
    chosen: &[String],
) -> Result<()> {
    let mut tally = Tally::new(1);
    for guest in &guests(rt)? {
        show_guest(rt, guest, effort, chosen, &mut tally)?;
    }
    for line in text_at(rt, "single.calls")?.lines() {
        if is_named(line) {
            show_call(rt, line, chosen)?;
        }
    }
    if is_chosen(chosen, "comparison of outputs") {
        let mut found = Differences::new(rt.alloc());
        compare_outputs(rt.alloc(), &mut found)?;
        show(rt, "comparison of outputs", Ok(()), &found)?;
    }
    if chosen.is_empty() {
        println!(rt; "{} walks", tally.walks())?;
    }
    Ok(())
}

/// Shows the rows of the runs of a program.
fn show_guest<R: AllocGlobal + Print + Threads + Wait + Sync>(
    rt: &R,
    guest: &Guest,
    effort: Effort,
    chosen: &[String],
    tally: &mut Tally,
) -> Result<()> {
    let file = guest.file(rt.alloc())?;
    for run in &guest.runs {
        if is_chosen(chosen, run.name.as_str()) {
            let mut found = Differences::new(rt.alloc());
            let case = Case { run, file: &file };
            let compared = compare_run(rt, rt.alloc(), case, effort, tally, &mut found);
            show(rt, run.name.as_str(), compared, &found)?;
        }
    }
    Ok(())
}

/// Shows the row of a single call.
fn show_call<R: AllocGlobal + Print + Threads + Wait + Sync>(
    rt: &R,
    line: &str,
    chosen: &[String],
) -> Result<()> {
    let call = SingleCall::of_line(line);
    let run = call.run(rt.alloc())?;
    if !is_chosen(chosen, run.name.as_str()) {
        return Ok(());
    }
    let file = call.file(rt.alloc())?;
    let case = Case {
        run: &run,
        file: &file,
    };
    let mut found = Differences::new(rt.alloc());
    let compared = compare_call(rt, rt.alloc(), case, &mut found);
    show(rt, run.name.as_str(), compared, &found)
}
