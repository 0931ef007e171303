//! Lines on the pages that views list, patches and their merge.

use crate::answer::Answer;
use crate::memories::{Memories, at};
use crate::numbers::numbers_of;
use anyhow::{Result, anyhow};
use commit::{Patch, apply, changed, changed_addresses};
use paged_memory::{GuestMemory, WholeMemory};
use std::alloc::{AllocError, Global};
use test_guest_rows::split;
use twins::View;

/// Takes a line on a view and what it changed, if it is one.
pub fn take_commit_line(
    answer: &mut Answer,
    memories: &mut Memories,
    verb: &str,
    rest: &str,
) -> Result<bool> {
    let (name, other) = split(rest);
    match verb {
        "dirty" | "private" | "patch" => {
            write_view(memories.alloc, answer, at(&mut memories.views, name)?, verb)?;
        }
        "merge" => merge(answer, memories, name, other)?,
        "agree" => write_agreement(answer, memories, name, other)?,
        _ => return Ok(false),
    }
    Ok(true)
}

/// Writes the pages of a view that were stored to, how many pages it keeps, or how many bytes it changed, and their addresses.
fn write_view(
    alloc: Global,
    answer: &mut Answer,
    view: &View,
    verb: &str,
) -> Result<(), AllocError> {
    match verb {
        "dirty" => answer.numbers(&view.dirty()?),
        "private" => answer.count(view.private_pages().len() as u64),
        _ => {
            let patch = Patch::of(alloc, view)?;
            answer.count(changed(&patch));
            answer.push(":");
            answer.numbers(&changed_addresses(alloc, &patch)?);
        }
    }
    Ok(())
}

/// Merges what a view changed into a snapshot, and writes how many bytes that were.
fn merge(answer: &mut Answer, memories: &mut Memories, snapshot: &str, view: &str) -> Result<()> {
    let patch = Patch::of(memories.alloc, at(&mut memories.views, view)?)?;
    answer.count(changed(&patch));
    Ok(apply(at(&mut memories.snapshots, snapshot)?, &patch)?)
}

/// Writes how many bytes a view changed, if they are those in which two whole memories differ: the text is these memories, and the
/// first address and the number of words that are looked at.
fn write_agreement(
    answer: &mut Answer,
    memories: &mut Memories,
    view: &str,
    text: &str,
) -> Result<()> {
    let wanted = differing_of(memories, text)?;
    let view = at(&mut memories.views, view)?;
    if is_patch(memories.alloc, view, &wanted)? {
        answer.count(wanted.len() as u64);
    } else {
        answer.word("other bytes differ");
    }
    Ok(())
}

/// Whether these are the addresses of the bytes that a view changed, and as many as are counted.
fn is_patch(alloc: Global, view: &View, wanted: &[u32]) -> Result<bool, AllocError> {
    let patch = Patch::of(alloc, view)?;
    let is_counted = changed(&patch) == wanted.len() as u64;
    let addresses = changed_addresses(alloc, &patch)?;
    Ok(is_counted && addresses.as_slice() == wanted)
}

/// The addresses of the bytes in which two whole memories differ.
fn differing_of(memories: &Memories, text: &str) -> Result<Vec<u32>> {
    let (before, rest) = split(text);
    let (after, range) = split(rest);
    let range = numbers_of(range);
    let before = whole_at(memories, before)?;
    let after = whole_at(memories, after)?;
    Ok(differing(memories.alloc, before, after, range)?)
}

/// The whole memory of this name.
fn whole_at<'a>(memories: &'a Memories, name: &str) -> Result<&'a WholeMemory> {
    match memories
        .wholes
        .iter()
        .find(|named| named.name.as_str() == name)
    {
        Some(named) => Ok(&named.memory),
        None => Err(anyhow!("no whole memory: {name}")),
    }
}

/// The addresses of some words at which two memories have different bytes.
fn differing(
    alloc: Global,
    one: &WholeMemory,
    other: &WholeMemory,
    [first, count, _, _, _, _]: [u32; 6],
) -> Result<Vec<u32>, AllocError> {
    let mut addresses = Vec::new(alloc);
    for number in 0..count {
        let address = first.wrapping_add(number.wrapping_mul(4));
        if one.load32(address) != other.load32(address) {
            push_differing(&mut addresses, one, other, address)?;
        }
    }
    Ok(addresses)
}

/// Appends those of them in the word at an address.
fn push_differing(
    addresses: &mut Vec<u32>,
    one: &WholeMemory,
    other: &WholeMemory,
    address: u32,
) -> Result<(), AllocError> {
    for offset in 0..4 {
        let place = address.wrapping_add(offset);
        if one.byte(place) != other.byte(place) {
            addresses.push(place)?;
        }
    }
    Ok(())
}
