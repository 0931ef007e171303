//! The memories of a row, by their names, and lines that make, ask and compare them.

use crate::accesses::access;
use crate::answer::Answer;
use crate::files::Files;
use anyhow::{Result, anyhow};
use elf32_reader::Image;
use hart::Hart;
use paged_memory::{Snapshot, WholeMemory};
use std::alloc::{AllocError, Global};
use test_guest_rows::split;
use twins::View;

/// A memory and its name.
#[derive(Drop)]
pub struct Named<T> {
    pub name: String,
    pub memory: T,
}

/// Memories of each kind.
#[derive(Drop)]
pub struct Memories {
    pub alloc: Global,
    pub wholes: Vec<Named<WholeMemory>>,
    pub snapshots: Vec<Named<Snapshot>>,
    pub views: Vec<Named<View>>,
    /// Where a snapshot is looked at if a change of it is refused.
    pub places: Vec<u32>,
}

impl Memories {
    /// None yet.
    pub fn new(alloc: Global) -> Self {
        Memories {
            alloc,
            wholes: Vec::new(alloc),
            snapshots: Vec::new(alloc),
            views: Vec::new(alloc),
            places: Vec::new(alloc),
        }
    }
}

/// The memory of this name, if it is one of these.
pub fn find<'a, T>(memories: &'a mut [Named<T>], name: &str) -> Option<&'a mut T> {
    let place = memories
        .iter()
        .position(|named| named.name.as_str() == name)?;
    let named = memories.get_mut(place)?;
    Some(&mut named.memory)
}

/// The memory of this name.
pub fn at<'a, T>(memories: &'a mut [Named<T>], name: &str) -> Result<&'a mut T> {
    match find(memories, name) {
        Some(memory) => Ok(memory),
        None => Err(anyhow!("no memory: {name}")),
    }
}

/// Adds a memory of this name.
fn add<T: Drop>(
    alloc: Global,
    memories: &mut Vec<Named<T>>,
    name: &str,
    memory: T,
) -> Result<(), AllocError> {
    let name = String::from_str(alloc, name)?;
    Ok(memories.push(Named { name, memory })?)
}

/// Takes a line that makes a memory, if it is one.
pub fn take_memory_line(
    memories: &mut Memories,
    files: &Files,
    verb: &str,
    rest: &str,
) -> Result<bool> {
    let (name, of) = split(rest);
    match verb {
        "whole" => {
            let made = WholeMemory::of_image(memories.alloc, image_of(files)?)?;
            add(memories.alloc, &mut memories.wholes, name, made)?;
            return Ok(true);
        }
        "snapshot" | "view" | "clone" | "open" | "base" => {}
        _ => return Ok(false),
    }
    let made = match verb {
        "clone" | "open" => at(&mut memories.snapshots, of)?.try_clone()?,
        "base" => at(&mut memories.views, of)?.base().try_clone()?,
        _ => Snapshot::of_image(memories.alloc, image_of(files)?)?,
    };
    match verb {
        "view" | "open" => add(memories.alloc, &mut memories.views, name, View::open(made))?,
        _ => add(memories.alloc, &mut memories.snapshots, name, made)?,
    }
    Ok(true)
}

/// The image that was read.
fn image_of(files: &Files) -> Result<&Image> {
    match &files.image {
        Some(image) => Ok(image),
        None => Err(anyhow!("no image")),
    }
}

/// Takes a line on the memory that it names, or on two: the last kind of line.
pub fn take_access_line(
    answer: &mut Answer,
    memories: &mut Memories,
    hart: &mut Hart,
    verb: &str,
    rest: &str,
) -> Result<bool> {
    let (name, rest) = split(rest);
    if verb == "same" {
        compare(answer, memories, hart, name, rest)?;
        return Ok(true);
    }
    ask(answer, memories, hart, verb, name, rest)
}

/// Asks two memories the same, and writes both answers if they differ. The text is the second name and what is asked.
fn compare(
    answer: &mut Answer,
    memories: &mut Memories,
    hart: &mut Hart,
    one: &str,
    text: &str,
) -> Result<()> {
    let (other, asked) = split(text);
    let (verb, rest) = split(asked);
    let mut wanted = Answer::new(memories.alloc);
    let is_asked = ask(answer, memories, hart, verb, one, rest)?
        && ask(&mut wanted, memories, hart, verb, other, rest)?;
    if is_asked && answer.text() == wanted.text() {
        answer.clear();
    } else {
        answer.push(" and ");
        answer.push(wanted.text());
    }
    Ok(())
}

/// Asks the memory of a name.
fn ask(
    answer: &mut Answer,
    memories: &mut Memories,
    hart: &mut Hart,
    verb: &str,
    name: &str,
    rest: &str,
) -> Result<bool> {
    if let Some(memory) = find(&mut memories.wholes, name) {
        return Ok(access(answer, hart, memory, verb, rest)?);
    }
    if let Some(memory) = find(&mut memories.snapshots, name) {
        return Ok(access(answer, hart, memory, verb, rest)?);
    }
    Ok(access(answer, hart, at(&mut memories.views, name)?, verb, rest)?)
}
