//! Tests the parts of the guest machine by the rows of its data/: words, files, memories, harts and calls.
//!
//! It runs in the folder data/, whose file `list` names the files of rows, or in the one that has it. With no arguments it prints a
//! line for each row: `NAME: ok`, or what differs. `test_parts NAME..` does so for the rows whose names begin with these words.
//! data/list says what a row has.
#![tactic(auto)]

mod accesses;
mod answer;
mod commits;
mod files;
mod growth;
mod harts;
mod images;
mod lined_row;
mod lined_rows;
mod memories;
mod numbers;
mod objects;
mod pages;
mod perms;
mod rows;
mod scene;
mod snapshots;
mod threads;
mod words;

use anyhow::Result;
use rows::show_rows;
use std::env;

fn main(rt: HostRuntime) -> Result<()> {
    let arguments: Vec<String> = env::args(&rt)?.collect(rt.alloc())?;
    match arguments.as_slice() {
        [] => show_rows(&rt, &[]),
        [_, chosen @ ..] => show_rows(&rt, chosen),
    }
}
