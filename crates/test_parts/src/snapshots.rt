//! Lines on the pages of snapshots and whole memories.

use crate::answer::Answer;
use crate::growth::{Growth, grow};
use crate::memories::{Memories, at, find};
use crate::numbers::{numbers_of, push_words};
use crate::pages::page_of;
use crate::perms::{perm_of, write_perm};
use anyhow::Result;
use paged_memory::{Page, Snapshot};
use std::alloc::{AllocError, Global};
use std::sync::Arc;
use test_guest_rows::{split, word};

/// Takes a line on the pages of memories, if it is one.
pub fn take_snapshot_line(
    answer: &mut Answer,
    memories: &mut Memories,
    verb: &str,
    rest: &str,
) -> Result<bool> {
    let (name, text) = split(rest);
    match verb {
        "cell" => write_cell(answer, memories, name, numbers_of(text))?,
        "places" => push_words(&mut memories.places, rest)?,
        "map" | "unmap" | "grow" | "lend" | "replace" => {
            let snapshot = at(&mut memories.snapshots, name)?;
            match verb {
                "lend" => write_page(answer, snapshot, numbers_of(text)),
                "replace" => replace(memories.alloc, answer, snapshot, text)?,
                _ => grow(
                    answer,
                    snapshot,
                    Growth::of_line(verb, text),
                    &memories.places,
                )?,
            }
        }
        _ => return Ok(false),
    }
    Ok(true)
}

/// Writes the byte at an address of a whole memory or a snapshot, and what its page permits.
fn write_cell(
    answer: &mut Answer,
    memories: &mut Memories,
    name: &str,
    [address, _, _, _, _, _]: [u32; 6],
) -> Result<()> {
    let (byte, perm) = match find(&mut memories.wholes, name) {
        Some(whole) => (whole.byte(address), whole.perm(address)),
        None => {
            let snapshot = at(&mut memories.snapshots, name)?;
            (snapshot.byte(address), snapshot.perm(address))
        }
    };
    answer.found(byte.map(u32::from));
    write_perm(answer, perm);
    Ok(())
}

/// Writes the first byte of a page, and what it permits.
fn write_page(answer: &mut Answer, snapshot: &Snapshot, [number, _, _, _, _, _]: [u32; 6]) {
    if number >= 0x0010_0000 {
        return;
    }
    match snapshot.page(number) {
        Some(page) => {
            answer.number(u32::from(page.bytes()[0]));
            write_perm(answer, Some(page.perm()));
        }
        None => answer.found(None),
    }
}

/// Replaces a page that is there: its number, what it permits, and its bytes.
fn replace(
    alloc: Global,
    answer: &mut Answer,
    snapshot: &mut Snapshot,
    text: &str,
) -> Result<(), AllocError> {
    let (number, rest) = split(text);
    let number = word(number);
    if number >= 0x0010_0000 || snapshot.page(number).is_none() {
        answer.word("no page");
        return Ok(());
    }
    let (perm, bytes) = split(rest);
    let bytes = page_of(alloc, bytes)?;
    let page = Arc::new(alloc, Page::new(perm_of(perm), bytes))?;
    snapshot.replace(number, page)
}
