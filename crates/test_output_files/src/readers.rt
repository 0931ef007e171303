//! Files that are read, and readers that end, that fail and that are interrupted.

use crate::fakes::{FailingReader, InterruptedReader};
use crate::faults::kind_of;
use crate::words::{number, split};
use output_files::{Files, HostFiles, ReadFault, read_upto};
use std::alloc::{AllocError, Global};
use std::io;

/// Reads. Whether it gives what is wanted.
pub fn is_read(rt: &HostRuntime, verb: &str, rest: &str) -> io::Result<bool> {
    let (first, second) = split(rest);
    match verb {
        "zeros" => Ok(has_zeros(rt, first, second)),
        "refused" => Ok(is_refused(rt, rest)),
        "upto" => Ok(is_taken(rt.alloc(), number(first), second)),
        "pieces" => Ok(is_joined(rt.alloc(), number(first), number(second))?),
        "interrupted" => Ok(is_made_again(rt.alloc(), first, number(second))),
        "fails" => Ok(is_named(rt.alloc(), first, number(second))),
        _ => Ok(false),
    }
}

/// Whether a file is read up to a limit as so many bytes, of which the first are zeros.
fn has_zeros(rt: &HostRuntime, path: &str, rest: &str) -> bool {
    let (limit, count) = split(rest);
    match HostFiles::new(rt).read(rt.alloc(), path, number(limit) as usize) {
        Ok(bytes) => is_zeros(&bytes, number(count) as usize),
        Err(_) => false,
    }
}

/// Whether these are so many bytes, of which the first are zeros.
fn is_zeros(bytes: &[u8], count: usize) -> bool {
    bytes.len() == count && bytes.iter().take(5).all(|byte| *byte == 0)
}

/// Whether the file at a path can't be read.
fn is_refused(rt: &HostRuntime, path: &str) -> bool {
    let read = HostFiles::new(rt).read(rt.alloc(), path, 4);
    matches!(read, Err(ReadFault::ReadFailed))
}

/// Whether these bytes are taken of a text up to a limit, and the others are left.
fn is_taken(alloc: Global, limit: u32, texts: &str) -> bool {
    let (text, wanted) = split(texts);
    let mut reader = text.as_bytes();
    let read = read_upto(alloc, &mut reader, limit as usize);
    is_bytes(read, wanted.as_bytes()) && reader.len() == text.len().saturating_sub(wanted.len())
}

/// Whether these bytes were read.
fn is_bytes(read: Result<Vec<u8>, ReadFault>, wanted: &[u8]) -> bool {
    match read {
        Ok(bytes) => bytes.as_slice() == wanted,
        Err(_) => false,
    }
}

/// Whether the words of the first numbers are read up to a limit as they are.
fn is_joined(alloc: Global, count: u32, limit: u32) -> Result<bool, AllocError> {
    let all = words_below(alloc, count)?;
    let mut reader = all.as_slice();
    let read = read_upto(alloc, &mut reader, limit as usize);
    let length = all.len().min((limit as usize).saturating_add(1));
    Ok(is_bytes(read, &all.as_slice()[..length]))
}

/// The words of the numbers from 0 on.
fn words_below(alloc: Global, count: u32) -> Result<Vec<u8>, AllocError> {
    let mut all = Vec::new(alloc);
    for number in 0..count {
        all.extend_from_slice(&number.to_le_bytes())?;
    }
    Ok(all)
}

/// Whether a text is read whole though so many reads are interrupted.
fn is_made_again(alloc: Global, text: &str, interrupts: u32) -> bool {
    let mut reader = InterruptedReader {
        is_next_interrupted: true,
        bytes: text.as_bytes(),
        interrupts: 0,
    };
    let read = read_upto(alloc, &mut reader, 99);
    is_bytes(read, text.as_bytes()) && reader.interrupts == interrupts
}

/// Whether a read that fails in this way after some good ones is a failed one, and isn't made again.
fn is_named(alloc: Global, kind: &str, good_reads: u32) -> bool {
    let mut reader = FailingReader {
        good_reads,
        kind: kind_of(kind),
        failures: 0,
    };
    let read = read_upto(alloc, &mut reader, 99);
    matches!(read, Err(ReadFault::ReadFailed)) && reader.failures == 1
}
