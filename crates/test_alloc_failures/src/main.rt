//! Makes the calls that take memory; a refused one must leave all unchanged and succeed when it is made again.
//!
//! It prints a line for each case: what the call answered in the end. The text is the same whichever request
//! for memory is refused, as `rt try --fail-alloc N` shows for each N.
#![tactic(auto)]

mod answer;
mod case;
mod commits;
mod failed;
mod lent;
mod picture;
mod programs;
mod quiet;
mod recorders;
mod retry;
mod runs;
mod snapshots;
mod standing;
mod stores;
mod tables;
mod taker;
mod views;
mod whole;
mod worlds;

use answer::Answer;
use case::{CASES, Case};
use failed::Failed;
use quiet::{QUIET_CASES, Quiet};
use std::alloc::Global;
use std::io;
use std::sync::Wait;
use std::thread::Threads;

fn main(rt: HostRuntime) -> io::Result<()> {
    print_cases(&rt, rt.alloc())?;
    print_quiet_cases(&rt, rt.alloc())
}

/// Prints what the calls come to that take memory.
fn print_cases<R: Print + Threads + Wait + Sync>(rt: &R, alloc: Global) -> io::Result<()> {
    for (name, case) in &CASES {
        print_answer(rt, name, perform(rt, alloc, case))?;
    }
    Ok(())
}

/// Makes what the calls work on that take no memory, and prints what they come to.
fn print_quiet_cases<R: Print>(rt: &R, alloc: Global) -> io::Result<()> {
    match quiet_after_set_up(alloc) {
        Ok(mut quiet) => print_quiet(rt, alloc, &mut quiet),
        Err(failed) => println!(rt; "{}", failed.text()),
    }
}

/// Prints what the calls come to that take no memory. One request for memory is made before them and one
/// after them, so that who refuses all from the first on can see that these and no others were made.
fn print_quiet<R: Print>(rt: &R, alloc: Global, quiet: &mut Quiet) -> io::Result<()> {
    print_request(rt, alloc, "before them")?;
    print_groups(rt, quiet)?;
    print_request(rt, alloc, "after them")
}

/// Prints what each group of calls comes to that take no memory.
fn print_groups<R: Print>(rt: &R, quiet: &mut Quiet) -> io::Result<()> {
    for (name, case) in QUIET_CASES {
        print_answer(rt, name, quiet.perform(case))?;
    }
    Ok(())
}

/// Asks for memory once, and prints whether it was given.
fn print_request<R: Print>(rt: &R, alloc: Global, place: &str) -> io::Result<()> {
    match Box::new(alloc, 0u64) {
        Ok(_) => println!(rt; "a request {place}: given"),
        Err(_) => println!(rt; "a request {place}: refused"),
    }
}

/// Prints what a case came to.
fn print_answer<R: Print>(rt: &R, name: &str, answer: Result<Answer, Failed>) -> io::Result<()> {
    match answer {
        Ok(answer) => println!(rt; "{name}: {answer}"),
        Err(failed) => println!(rt; "{name}: {}", failed.text()),
    }
}

/// What the calls work on that take no memory. Where memory had run out, it is made once more.
fn quiet_after_set_up(alloc: Global) -> Result<Quiet, Failed> {
    match Quiet::set_up(alloc) {
        Err(Failed::SetUp) => Quiet::set_up(alloc),
        done => done,
    }
}

/// Performs a case. Where its set-up is refused, it is performed once more from the start.
fn perform<R: Threads + Wait + Sync>(rt: &R, alloc: Global, case: &Case) -> Result<Answer, Failed> {
    match case.perform(rt, alloc) {
        Err(Failed::SetUp) => case.perform(rt, alloc),
        done => done,
    }
}
