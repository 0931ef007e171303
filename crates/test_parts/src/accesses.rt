//! Lines on a memory of any kind: loads, stores, fetches and harts that run on it.

use crate::answer::Answer;
use crate::harts::write_hart;
use crate::numbers::numbers_of;
use guest_memory::{AccessFault, GuestMemory, StoreFault};
use hart::{Hart, run_to_stop, step};
use std::alloc::AllocError;
use test_guest_rows::{decimal, split};

/// Answers a line on a memory, if it is one.
pub fn access<M: GuestMemory>(
    answer: &mut Answer,
    hart: &mut Hart,
    memory: &mut M,
    verb: &str,
    rest: &str,
) -> Result<bool, AllocError> {
    match verb {
        "run" => write_run(answer, *hart, memory, rest)?,
        "step" => {
            answer.shown(&step(hart, memory));
            answer.push(" ");
            write_hart(answer, hart);
        }
        _ => return Ok(access_at(answer, memory, verb, numbers_of(rest))),
    }
    Ok(true)
}

/// Answers a line on addresses of a memory, if it is one.
fn access_at<M: GuestMemory>(
    answer: &mut Answer,
    memory: &mut M,
    verb: &str,
    [first, second, third, fourth, fifth, _]: [u32; 6],
) -> bool {
    match verb {
        "load" => write_loaded(answer, load(memory, first, second)),
        "store" => write_stored(answer, store(memory, first, second, third)),
        "fetch" => answer.found(fetch(memory, first)),
        "at" => write_at(answer, memory, first),
        "near" => write_near(answer, memory, first),
        "put" => answer.whether(put(memory, first, second, third)),
        "bring" => bring(memory, first, second),
        "stores" => store_all(answer, memory, [first, second, third, fourth, fifth]),
        "words" => write_words(answer, memory, first, second),
        _ => return false,
    }
    true
}

/// Loads a byte, two bytes or a word.
fn load<M: GuestMemory>(memory: &M, width: u32, address: u32) -> Result<u32, AccessFault> {
    match width {
        1 => memory.load8(address).map(u32::from),
        2 => memory.load16(address).map(u32::from),
        _ => memory.load32(address),
    }
}

/// Fetches the word at an address, or none if that is no multiple of 4.
fn fetch<M: GuestMemory>(memory: &M, address: u32) -> Option<u32> {
    if address % 4 != 0 {
        return None;
    }
    memory.fetch(address)
}

/// Stores the low byte, the two low bytes or all of a word.
fn store<M: GuestMemory>(
    memory: &mut M,
    width: u32,
    address: u32,
    value: u32,
) -> Result<(), StoreFault> {
    match width {
        1 => memory.store8(address, (value % 256) as u8),
        2 => memory.store16(address, (value % 65_536) as u16),
        _ => memory.store32(address, value),
    }
}

/// Puts the low byte, the two low bytes or all of a word near.
fn put<M: GuestMemory>(memory: &mut M, width: u32, address: u32, value: u32) -> bool {
    match width {
        1 => memory.put8(address, (value % 256) as u8),
        2 => memory.put16(address, (value % 65_536) as u16),
        _ => memory.put32(address, value),
    }
}

/// Brings an address near so many times.
fn bring<M: GuestMemory>(memory: &mut M, address: u32, times: u32) {
    for _ in 0..times {
        memory.bring_near(address);
    }
}

/// Writes what a load gave.
fn write_loaded(answer: &mut Answer, loaded: Result<u32, AccessFault>) {
    match loaded {
        Ok(value) => answer.number(value),
        Err(AccessFault::Denied) => answer.word("denied"),
        Err(AccessFault::Misaligned) => answer.word("misaligned"),
    }
}

/// Writes why a store wasn't made, and nothing if it was.
fn write_stored(answer: &mut Answer, stored: Result<(), StoreFault>) {
    match stored {
        Ok(()) => {}
        Err(StoreFault::Refused(AccessFault::Denied)) => answer.word("denied"),
        Err(StoreFault::Refused(AccessFault::Misaligned)) => answer.word("misaligned"),
        Err(StoreFault::OutOfMemory(_)) => answer.word("out of memory"),
    }
}

/// Writes what loads of each width and a fetch find at an address.
fn write_at<M: GuestMemory>(answer: &mut Answer, memory: &M, address: u32) {
    for width in [1, 2, 4] {
        write_loaded(answer, load(memory, width, address));
    }
    answer.found(fetch(memory, address));
}

/// Writes what near loads of each width find at an address.
fn write_near<M: GuestMemory>(answer: &mut Answer, memory: &M, address: u32) {
    answer.found(memory.near8(address).map(u32::from));
    answer.found(memory.near16(address).map(u32::from));
    answer.found(memory.near32(address));
}

/// Stores words at places that are a step apart, from a first on, each by a number greater than the one before, from 0 on.
fn store_all<M: GuestMemory>(
    answer: &mut Answer,
    memory: &mut M,
    [first, step, count, value, growth]: [u32; 5],
) {
    for number in 0..count {
        let address = first.wrapping_add(number.wrapping_mul(step));
        let value = value.wrapping_add(number.wrapping_mul(growth));
        write_stored(answer, memory.store32(address, value));
    }
}

/// Writes the words from an address on that aren't 0, each after its address.
fn write_words<M: GuestMemory>(answer: &mut Answer, memory: &M, first: u32, count: u32) {
    for number in 0..count {
        let address = first.wrapping_add(number.wrapping_mul(4));
        let loaded = memory.load32(address);
        if loaded != Ok(0) {
            answer.number(address);
            write_loaded(answer, loaded);
        }
    }
}

/// Writes where a run of a hart stops, after how many instructions, and the hart then.
fn write_run<M: GuestMemory>(
    answer: &mut Answer,
    mut hart: Hart,
    memory: &mut M,
    limits: &str,
) -> Result<(), AllocError> {
    let (left, quantum) = split(limits);
    let quantum = match quantum {
        "" => None,
        quantum => Some(decimal(quantum)),
    };
    let (stop, count) = run_to_stop(&mut hart, memory, decimal(left), quantum)?;
    answer.shown(&stop);
    answer.push(" ");
    answer.count(count);
    answer.push(" ");
    write_hart(answer, &hart);
    Ok(())
}
