//! What gdb is shown of the memory that a thread sees, and of the shared memory.
ghost use Rattle.std.specs.Prelude.{◌≡◌, IfOk, min, option_map};
ghost use Rattle.std.specs.String.{string_bytes};
ghost use Rattle.timeline.specs.Present.{moment_of};
ghost use Rattle.gdb_shown.specs.Memory.{bytes_from, bytes_shown, memory_shown, shared_byte};

use gdb_packets::{Window, write_bytes};
use std::alloc::{AllocError, Global};
use timeline::Timeline;

/// How many bytes of memory an answer has at most.
const MEMORY_LIMIT: u64 = 0x2000;

/// The digits of the bytes that a thread sees, as far as they are mapped; none if the first one isn't.
pub fn memory_text(
    alloc: Global,
    timeline: &Timeline,
    thread: u32,
    window: Window,
) -> Result<Option<String>, AllocError>
    ensures { IfOk result (λ text. option_map string_bytes text ≡ memory_shown (moment_of timeline.now.present) thread window) }
{
    let bytes = bytes_in(alloc, timeline, thread, window)?;
    match bytes.as_slice() {
        [] => Ok(None),
        seen => {
            let mut text = String::new(alloc);
            write_bytes(&mut text, seen)?;
            Ok(Some(text))
        }
    }
}

/// The bytes that a thread sees in a window, as far as they are mapped.
fn bytes_in(
    alloc: Global,
    timeline: &Timeline,
    thread: u32,
    window: Window,
) -> Result<Vec<u8>, AllocError>
    ensures { IfOk result
        (λ bytes. bytes.items ≡ bytes_shown (moment_of timeline.now.present) thread window.start (min window.length 0x2000)) }
{
    let length = window.length.min(MEMORY_LIMIT) as u32;
    match u32::try_from(window.start) {
        Ok(start) => bytes_seen(alloc, timeline, thread, start, length),
        Err(_) => Ok(Vec::new(alloc)),
    }
}

/// The bytes that a thread sees from an address on, as far as they are mapped, at most so many.
pub fn bytes_seen(
    alloc: Global,
    timeline: &Timeline,
    thread: u32,
    start: u32,
    length: u32,
) -> Result<Vec<u8>, AllocError>
    ensures { IfOk result (λ bytes. bytes.items ≡ bytes_shown (moment_of timeline.now.present) thread start length) }
{
    let mut bytes = Vec::new(alloc);
    for offset in 0..length {
        let Some(address) = start.checked_add(offset) else {
            return Ok(bytes);
        };
        let Some(byte) = timeline.byte(thread, address) else {
            return Ok(bytes);
        };
        bytes.push(byte)?;
    }
    Ok(bytes)
}

/// The bytes of the shared memory from an address on, as far as they are mapped, at most so many.
pub fn bytes_shared(
    alloc: Global,
    timeline: &Timeline,
    start: u32,
    length: u32,
) -> Result<Vec<u8>, AllocError>
    ensures { IfOk result (λ bytes. bytes.items ≡ bytes_from (shared_byte (moment_of timeline.now.present)) start length) }
{
    let mut bytes = Vec::new(alloc);
    for offset in 0..length {
        let Some(address) = start.checked_add(offset) else {
            return Ok(bytes);
        };
        let Some(byte) = byte_shared(timeline, address) else {
            return Ok(bytes);
        };
        bytes.push(byte)?;
    }
    Ok(bytes)
}

/// The byte of the shared memory at an address, none if it isn't mapped.
fn byte_shared(timeline: &Timeline, address: u32) -> Option<u8>
    ensures { result ≡ shared_byte (moment_of timeline.now.present) address }
{
    timeline.serial().now().byte(address)
}
