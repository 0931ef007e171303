//! Writes texts of runs and of what numbers draw: `stdout` has what they must be.
//!
//! With no arguments it writes the timelines of runs whose turns are written by hand; a line for each row of races, locks, dead bytes
//! and symbols, `NAME: ok` or what it gave, with one for random histories of each kind and one for random files; and what numbers draw.
//! `test_texts random N [SEED]` looks at N random histories of one turn from the seed, `test_texts files N [SEED]` at N random
//! files, and `test_texts names FILE FIRST COUNT` prints what COUNT addresses of a file from FIRST on are called, a line for each.
#![tactic(auto)]

mod of_freed;
mod of_locks;
mod of_races;
mod of_shuffles;
mod of_symbols;
mod of_timelines;

use anyhow::Result;
use std::env;

fn main(rt: HostRuntime) -> Result<()> {
    let arguments: Vec<String> = env::args(&rt)?.collect(rt.alloc())?;
    match arguments.as_slice() {
        [_, action, count] => show_some(&rt, action.as_str(), count.as_str(), "1"),
        [_, action, count, seed] => {
            show_some(&rt, action.as_str(), count.as_str(), seed.as_str())
        }
        [_, action, file, first, count] if action.as_str() == "names" => of_symbols::show_names(
            &rt,
            file.as_str(),
            first.as_str().parse()?,
            count.as_str().parse()?,
        ),
        _ => show_all(&rt),
    }
}

/// Looks at so many random histories, or files, from a seed.
fn show_some<R: AllocGlobal + Print>(rt: &R, action: &str, count: &str, seed: &str) -> Result<()> {
    if action == "files" {
        return of_symbols::show_random(rt, count.parse()?, seed.parse()?);
    }
    of_races::show_random(rt, count.parse()?, seed.parse()?)
}

/// Shows all texts.
fn show_all(rt: &HostRuntime) -> Result<()> {
    of_timelines::show_rows(rt)?;
    of_races::show_all(rt)?;
    of_locks::show_all(rt)?;
    of_freed::show_all(rt)?;
    of_symbols::show_all(rt)?;
    of_shuffles::show_shuffles(rt)
}
