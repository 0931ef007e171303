//! Lines on the bytes of pages: counts of those that differ, and merges.

use crate::answer::Answer;
use crate::numbers::list_of;
use commit::{count_page, merge_page};
use std::alloc::{AllocError, Global};
use test_guest_rows::{byte, split};

/// Takes a line on the page, if it is one.
pub fn take_page_line(
    alloc: Global,
    answer: &mut Answer,
    page: &mut [u8; 4096],
    verb: &str,
    rest: &str,
) -> Result<bool, AllocError> {
    match verb {
        "page" => *page = page_of(alloc, rest)?,
        "count-page" => answer.number(count_page(page, &page_of(alloc, rest)?)),
        "merge-page" => {
            let (copy, mine) = split(rest);
            let (copy, mine) = (page_of(alloc, copy)?, page_of(alloc, mine)?);
            merge_page(page, &copy, &mine);
            write_bytes_that_change(answer, page.as_slice());
        }
        _ => return Ok(false),
    }
    Ok(true)
}

/// The page of a line: the byte that it has everywhere, and another byte with the places where it has that one.
pub fn page_of(alloc: Global, text: &str) -> Result<[u8; 4096], AllocError> {
    let (filling, rest) = split(text);
    let mut page = [byte(filling); 4096];
    let (other, places) = split(rest);
    for place in &list_of(alloc, places)? {
        if let Some(there) = page.get_mut(*place as usize) {
            *there = byte(other);
        }
    }
    Ok(page)
}

/// Writes the first byte, and each one that isn't as the one before it, with its place.
fn write_bytes_that_change(answer: &mut Answer, bytes: &[u8]) {
    let mut last = None;
    for (place, byte) in (0_u32..).zip(bytes) {
        if last != Some(*byte) {
            answer.number(place);
            answer.push("=");
            answer.digits(u32::from(*byte));
        }
        last = Some(*byte);
    }
}
