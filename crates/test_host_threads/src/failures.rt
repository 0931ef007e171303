//! Phases of guest programs, whose requests for memory `tools/dt sweep memory` refuses in turn.
//!
//! A line is printed for each: what it came to, or that memory was refused. Round the draws one request for memory is
//! made before and one after them.

mod digests;
mod draws;
mod guests;
mod taker;

use digests::{digest_in_order, digest_of_phase};
use draws::print_draws;
use guests::{GUESTS, Guest};
use std::alloc::{AllocError, Global};
use std::io;
use std::sync::Wait;
use std::thread::Threads;

/// Prints the draws and the phases.
pub fn show_failures<R: Print + Threads + Wait + Sync>(rt: &R, alloc: Global) -> io::Result<()> {
    print_draws(rt, alloc)?;
    for guest in &GUESTS {
        print_guest(rt, alloc, guest)?;
    }
    Ok(())
}

/// Prints what a phase of a guest comes to by one worker and by four.
fn print_guest<R: Print + Threads + Wait + Sync>(
    rt: &R,
    alloc: Global,
    guest: &Guest,
) -> io::Result<()> {
    let name = guest.program.name;
    print_digest(rt, name, "one worker", digest_of_phase(rt, alloc, guest, 1))?;
    print_digest(
        rt,
        name,
        "four workers",
        digest_of_phase(rt, alloc, guest, 4),
    )?;
    print_digest(
        rt,
        name,
        "one worker, in order",
        digest_in_order(rt, alloc, guest, 1),
    )?;
    print_digest(
        rt,
        name,
        "four workers, in order",
        digest_in_order(rt, alloc, guest, 4),
    )
}

/// Prints a digest.
fn print_digest<R: Print>(
    rt: &R,
    name: &str,
    how: &str,
    digest: Result<Option<u64>, AllocError>,
) -> io::Result<()> {
    match digest {
        Ok(Some(digest)) => println!(rt; "{name}, {how}: {digest:016x}"),
        Ok(None) | Err(_) => println!(rt; "{name}, {how}: out of memory"),
    }
}
