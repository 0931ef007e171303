//! Lines of traces whose rounds differ in numbers alone. A line `* WORDS` of a trace in `data/` stands for them.

use std::alloc::AllocError;
use test_guest_rows::{decimal, push_whole, split, word};

/// Appends the lines of the rounds that these words name:
///
/// - `creates`: thread 0 creates its second to its 255th thread in one phase;
/// - `creates-and-ends`: thread 0 creates its second to its 255th thread, one in a phase, in which the one before ends;
/// - `ends`: threads 1 to 255 end;
/// - `writes RAN`: thread 0 writes 65,536 bytes, 256 times, with so many instructions each time;
/// - `asks RAN`: thread 0 asks for 1024 pages, its second to its 16th time, with so many instructions each time.
pub fn write_rounds(text: &mut String, words: &str) -> Result<(), AllocError> {
    let (name, ran) = split(words);
    match name {
        "creates" => write_creates(text),
        "creates-and-ends" => write_creates_and_ends(text),
        "ends" => write_ends(text),
        "writes" => write_writes(text, decimal(ran)),
        "asks" => write_asks(text, decimal(ran)),
        _ => push_whole(text, words),
    }
}

fn write_creates(text: &mut String) -> Result<(), AllocError> {
    for thread in 2..256_u32 {
        let last = thread - 1;
        write!(
            text,
            "1 0 create 00010040 {last:08x} 00000000 -> 0 {thread:08x} changed=0 ran=4\n"
        )?;
    }
    Ok(())
}

fn write_creates_and_ends(text: &mut String) -> Result<(), AllocError> {
    for thread in 2..256_u32 {
        let last = thread - 1;
        let argument = thread - 2;
        write!(
            text,
            "{thread} 0 create 00010038 {last:08x} 00000000 -> 0 {thread:08x} changed=0 ran=5\n\
             {thread} {last} thread_exit {argument:08x} {last:08x} 00000000 -> end changed=0 ran=2\n"
        )?;
    }
    Ok(())
}

fn write_ends(text: &mut String) -> Result<(), AllocError> {
    for thread in 1..256_u32 {
        let argument = thread - 1;
        write!(
            text,
            "2 {thread} thread_exit {argument:08x} {thread:08x} 00000000 -> end changed=0 ran=2\n"
        )?;
    }
    Ok(())
}

fn write_writes(text: &mut String, ran: u64) -> Result<(), AllocError> {
    for phase in 1..257_u32 {
        write!(
            text,
            "{phase} 0 write 00020000 00010000 00000000 -> 0 00010000 changed=0 ran={ran}\n"
        )?;
    }
    Ok(())
}

fn write_asks(text: &mut String, ran: u64) -> Result<(), AllocError> {
    for phase in 2..17_u32 {
        let value = 0x2000_0000 + (phase - 1) * 0x40_0000;
        let last = value - 0x40_0000;
        write!(
            text,
            "{phase} 0 memory 00000400 {last:08x} 00000000 -> 0 {value:08x} changed=0 ran={ran}\n"
        )?;
    }
    Ok(())
}

/// Appends the addresses of the bytes that change while the word at an address is counted up from 0 so many times, as a text says
/// both: its lowest byte each time, and the next one at each 256th time.
pub fn push_counted(changed: &mut Vec<u32>, text: &str) -> Result<(), AllocError> {
    let (address, times) = split(text);
    let address = word(address);
    for round in 0..decimal(times) {
        changed.push(address)?;
        if round % 256 == 255 {
            changed.push(address.wrapping_add(1))?;
        }
    }
    Ok(())
}
