//! Tests of host threads: phases of one thread and of many, phases whose requests for memory are refused, and the workers of runs.
//!
//! With no arguments the program makes draws, phases, and turns beside running jobs, and prints whether each goes as wanted; then a line
//! for each phase of a guest program, which says what it came to, or that memory was refused. `test_host_threads failures` prints the
//! latter alone. The tests are of what no contract says of the workers of a run.
#![tactic(auto)]

mod failures;
mod phases;
#[cfg(test)]
mod workers;

use anyhow::Result;
use failures::show_failures;
use phases::show_phases;
use std::rt::Env;

fn main(rt: HostRuntime) -> Result<()> {
    if !is_asked(&rt, b"failures") {
        show_phases(&rt, rt.alloc())?;
    }
    Ok(show_failures(&rt, rt.alloc())?)
}

/// Whether the first argument is this word. It takes no memory, so that all requests can be refused of what is asked for.
fn is_asked<R: Env>(rt: &R, word: &[u8]) -> bool {
    let mut argument = [0; 16];
    match rt.arg(1, &mut argument) {
        Ok(length) => argument.get(..length).is_some_and(|it| it == word),
        Err(_) => false,
    }
}
