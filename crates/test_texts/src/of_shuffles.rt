//! What numbers draw: a line for each word that is mixed, and one for each phase, with the threads of its list and their lengths.
//! `stdout` ends with what tools/dt_commands/gate/shuffles.py works out from the law's words.

use anyhow::Result;
use shuffled_phases::draws::mix;
use shuffled_phases::{drawn_length, shuffled};
use std::io::Write;
use thread_table::ThreadNumbers;

const WORDS: [u64; 6] = [0, 1, 1_234_567, 1 << 32, 1 << 63, u64::MAX];

const PHASES: [u64; 14] = [
    1,
    2,
    3,
    4,
    7,
    8,
    15,
    16,
    63,
    64,
    65,
    128,
    4_294_967_301,
    9_223_372_036_854_775_872,
];

const LARGE: [u32; 2] = [1 << 31, u32::MAX];

/// Shows what words are mixed to, and the phases of some numbers.
pub fn show_shuffles<R: Print>(rt: &R) -> Result<()> {
    for word in WORDS {
        println!(rt; "mix {} {}", word, mix(word))?;
    }
    for number in 1..65 {
        show_number(rt, number)?;
    }
    for number in LARGE {
        show_number(rt, number)?;
    }
    Ok(())
}

/// Shows the phases of a number.
fn show_number<R: Print>(rt: &R, number: u32) -> Result<()> {
    for phase in PHASES {
        show_phase(rt, number, phase)?;
    }
    Ok(())
}

/// Shows a phase: the list of some threads, each with its length.
fn show_phase<R: Print>(rt: &R, number: u32, phase: u64) -> Result<()> {
    print!(rt; "{}", number)?;
    print!(rt; " {}:", phase)?;
    let threads = threads_of(number, phase);
    let list = shuffled(number, phase, threads.as_slice());
    for thread in list.as_slice() {
        match drawn_length(number, phase, *thread) {
            Some(length) => print!(rt; " {}/{}", *thread, length)?,
            None => print!(rt; " {}/-", *thread)?,
        }
    }
    println!(rt; "")?;
    Ok(())
}

/// At most twelve threads, of which some numbers may be left out.
fn threads_of(number: u32, phase: u64) -> ThreadNumbers {
    let count = (number as u64 % 13 + phase % 13) % 13;
    let mut threads = ThreadNumbers::new();
    for place in 0..count as u32 {
        let _ = threads.try_push(place * (1 + number % 3));
    }
    threads
}
