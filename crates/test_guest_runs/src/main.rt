//! Runs the guest programs of its data/ by calls of the library, with 1, 2, 3, 4 and 64 workers, and prints what they give.
//!
//! It runs in the folder data/, whose file `list` names the programs, or in the one that has it. With no arguments it prints a line
//! for each row: `NAME: ok`, or what differs. `test_guest_runs NAME..` does so for the rows whose names begin with these words; after
//! the word `brief` it makes runs that take long once. `test_guest_runs walk N [SEED]` walks N times through the short runs by
//! events that are picked from the seed.
//!
//! A run is made turn by turn, whole by the run time, phase by phase and by picked events. `tools/dt test rows` makes the same runs by
//! their command lines, and compares the listings of the programs.
#![tactic(auto)]

mod case;
mod every_way;
mod files;
mod guest;
mod guest_run;
mod guest_text;
mod output;
mod outputs;
mod phases;
mod rounds;
mod rows;
mod sharing_gate;
mod single_call;
mod turn_by_turn;
mod walked;
mod whole_runs;

use anyhow::Result;
use every_way::Effort;
use rows::show_rows;
use std::env;
use test_guest_rows::decimal;
use walked::show_walks;

fn main(rt: HostRuntime) -> Result<()> {
    let arguments: Vec<String> = env::args(&rt)?.collect(rt.alloc())?;
    match arguments.as_slice() {
        [] | [_] => show_rows(&rt, Effort::Whole, &[]),
        [_, action, chosen @ ..] if action.as_str() == "brief" => {
            show_rows(&rt, Effort::Brief, chosen)
        }
        [_, action, rounds] if action.as_str() == "walk" => {
            show_walks(&rt, decimal(rounds.as_str()), 1)
        }
        [_, action, rounds, seed] if action.as_str() == "walk" => {
            show_walks(&rt, decimal(rounds.as_str()), decimal(seed.as_str()))
        }
        [_, chosen @ ..] => show_rows(&rt, Effort::Whole, chosen),
    }
}
