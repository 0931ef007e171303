//! Does what the rows of its data/ say with the host's files, with readers and with errors, and prints whether each row is so.
//!
//! It runs in the folder data/, or in the one that has it, and prints a line for each row: `NAME: ok`, or the first line of the row that
//! isn't so. data/rows says what a row has.
#![tactic(auto)]

mod fakes;
mod faults;
mod host;
mod names;
mod outputs;
mod readers;
mod rows;
mod words;

use rows::show_rows;
use std::io;

fn main(rt: HostRuntime) -> io::Result<()> {
    show_rows(&rt)
}
