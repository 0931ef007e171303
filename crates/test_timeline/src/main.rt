//! Reaches each position of guest programs forward, back and by leaps, and compares it with a run by written events; and halts forward and
//! back at breakpoints, stores and arrivals, and compares these steps with a plain scan of all positions.
//!
//! It prints a line for each program: `NAME: ok`, or what isn't as wanted.
#![tactic(auto)]

mod halts;
mod positions;
mod rows;
mod scan;

use anyhow::Result;
use data_guest_programs::{KEPT, Program};
use halts::wrong_halt;
use positions::wrong_position;
use std::alloc::Global;

fn main(rt: HostRuntime) -> Result<()> {
    for program in &KEPT {
        let said = said_of(rt.alloc(), program)?;
        println!(rt; "{}: {said}", program.name)?;
    }
    Ok(())
}

/// What isn't as wanted of a program, or `ok`.
fn said_of(alloc: Global, program: &Program) -> Result<String> {
    if let Some(wrong) = wrong_position(alloc, program)? {
        return Ok(wrong);
    }
    match wrong_halt(alloc, program)? {
        Some(wrong) => Ok(wrong),
        None => Ok(String::from_str(alloc, "ok")?),
    }
}
