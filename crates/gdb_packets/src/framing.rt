//! The frame of an answer, and the escapes of a frame's bytes.
ghost use Rattle.std.specs.Prelude.{◌≡◌, ℕ, List, ◌∷◌, ◌++◌, OnOk, IfOk};
ghost use Rattle.gdb_packets.specs.Escapes as escapes;
ghost use Rattle.gdb_packets.specs.Frames.{frame_of};

use crate::digits::write_byte;
use crate::sums::checksum;
use std::alloc::{AllocError, Global};

/// The byte after which the next one is changed in its sixth bit.
const ESCAPE: u8 = b'}';

/// Appends the frame of this text: `$`, the text with `}`, `#`, `$` and `*` escaped, `#` and the checksum of what stands
/// between.
pub fn frame(alloc: Global, text: &[u8], out: &mut Vec<u8>) -> Result<(), AllocError>
    ensures { OnOk result (out.new.items ≡ out.old.items ++ frame_of text.now) }
{
    let body = escaped(alloc, text)?;
    let mut sum = String::new(alloc);
    write_byte(&mut sum, checksum(body.as_slice()))?;
    out.push(b'$')?;
    out.extend_from_slice(body.as_slice())?;
    out.push(b'#')?;
    out.extend_from_slice(sum.as_bytes())
}

/// These bytes with those escaped that mean something in a frame.
fn escaped(alloc: Global, text: &[u8]) -> Result<Vec<u8>, AllocError>
    ensures { IfOk result (λ body. body.items ≡ escapes.escaped text.now) }
{
    let mut body = Vec::new(alloc);
    for byte in text {
        push_escaped(&mut body, *byte)?;
    }
    Ok(body)
}

/// Appends a byte, escaped if it means something in a frame.
#[tactic(auto, unfolding(crate::specs::Escapes::escaped_byte))]
fn push_escaped(body: &mut Vec<u8>, byte: u8) -> Result<(), AllocError>
    ensures { OnOk result (body.new.items ≡ body.old.items ++ escapes.escaped_byte byte) }
{
    if byte == b'#' || byte == b'$' || byte == b'*' || byte == ESCAPE {
        body.push(ESCAPE)?;
        body.push(flipped(byte))?;
    } else {
        body.push(byte)?;
    }
    Ok(())
}

/// The text of a frame's bytes, with its escapes taken out. A last byte that would escape is dropped.
pub fn unescaped(alloc: Global, body: &[u8]) -> Result<Vec<u8>, AllocError>
    ensures { IfOk result (λ text. text.items ≡ escapes.unescaped body.now) }
{
    let mut text = Vec::new(alloc);
    let mut is_escaped = false;
    for byte in body {
        is_escaped = push_unescaped(&mut text, *byte, is_escaped)?;
    }
    Ok(text)
}

/// Appends what a byte of a frame stands for, which is escaped or not, and answers whether the next one is.
#[tactic(auto, unfolding(crate::specs::Escapes::unescaped_by))]
fn push_unescaped(text: &mut Vec<u8>, byte: u8, is_escaped: bool) -> Result<bool, AllocError>
    ensures { IfOk result (λ next. (rest : List ℕ) →
        text.new.items ++ escapes.unescaped_by next rest ≡ text.old.items ++ escapes.unescaped_by is_escaped (byte ∷ rest)) }
{
    if is_escaped {
        text.push(flipped(byte))?;
        return Ok(false);
    }
    if byte == ESCAPE {
        return Ok(true);
    }
    text.push(byte)?;
    Ok(false)
}

/// A byte with its sixth bit changed.
fn flipped(byte: u8) -> u8
    ensures { result ≡ escapes.flipped byte }
{
    if byte / 32 % 2 == 0 {
        byte + 32
    } else {
        byte - 32
    }
}
