//! The file of a row, and lines on it.

use crate::answer::Answer;
use crate::images::take_image_line;
use crate::numbers::{numbers_of, push_words};
use data_guest_programs::{KEPT, ProgramHeader, file_of, file_of_headers, load, operands};
use elf32_reader::{ElfFault, Image, read};
use std::alloc::{AllocError, Global};
use test_guest_rows::{small, split, word};

/// The refusals, in the order of their numbers.
static FAULTS: [ElfFault; 21] = [
    ElfFault::TooLarge,
    ElfFault::Truncated,
    ElfFault::NotElf,
    ElfFault::NotClass32,
    ElfFault::NotLittleEndian,
    ElfFault::BadVersion,
    ElfFault::NotExec,
    ElfFault::NotRiscV,
    ElfFault::BadFlags,
    ElfFault::BadHeaderSize,
    ElfFault::TooManySegments,
    ElfFault::TableOutside,
    ElfFault::Interpreter,
    ElfFault::SegmentSizes,
    ElfFault::SegmentOutsideFile,
    ElfFault::SegmentOutsideWindow,
    ElfFault::WritableCode,
    ElfFault::SegmentOrder,
    ElfFault::TooManyPages,
    ElfFault::BadEntry,
    ElfFault::OutOfMemory,
];

/// A file, the words and the program headers of one to come, and the image of the last one that was read.
#[derive(Drop)]
pub struct Files {
    alloc: Global,
    words: Vec<u32>,
    headers: Vec<ProgramHeader>,
    file: Vec<u8>,
    pub image: Option<Image>,
}

impl Files {
    /// None yet.
    pub fn new(alloc: Global) -> Self {
        Files {
            alloc,
            words: Vec::new(alloc),
            headers: Vec::new(alloc),
            file: Vec::new(alloc),
            image: None,
        }
    }
}

/// Takes a line on files, if it is one.
pub fn take_file_line(
    answer: &mut Answer,
    files: &mut Files,
    verb: &str,
    rest: &str,
) -> Result<bool, AllocError> {
    match verb {
        "program" | "file" | "headed" => make_file(files, verb, rest)?,
        "size" => files.file.resize(small(rest) as usize, 0)?,
        "seven" => {
            make_file(files, "program", "seven")?;
            change(&mut files.file, rest);
            read_file(answer, files);
        }
        "read" => read_file(answer, files),
        "bytes" => answer.bytes(&files.file),
        "fault" => write_fault(answer, small(rest)),
        _ => return take_part_line(answer, files, verb, rest),
    }
    Ok(true)
}

/// Makes a file: of a program, of words alone, or of program headers and words. There is none if no program has the name.
fn make_file(files: &mut Files, verb: &str, name: &str) -> Result<(), AllocError> {
    match verb {
        "program" => {
            files.file.clear();
            for program in KEPT.iter().filter(|program| program.name == name) {
                files.file = program.file(files.alloc)?;
            }
        }
        "file" => files.file = file_of(files.alloc, &files.words)?,
        _ => files.file = file_of_headers(files.alloc, &files.headers, &files.words)?,
    }
    Ok(())
}

/// Takes a line on the parts of a file to come, or of the image, if it is one.
fn take_part_line(
    answer: &mut Answer,
    files: &mut Files,
    verb: &str,
    rest: &str,
) -> Result<bool, AllocError> {
    let numbers = numbers_of(rest);
    let [first, second, third, fourth, fifth, _] = numbers;
    match verb {
        "words" => push_words(&mut files.words, rest)?,
        "li" => files.words.extend_from_slice(&load(first, second))?,
        "operands" => {
            files.words.extend_from_slice(&operands(first, second))?;
            files.words.extend_from_slice(&[third, fourth, fifth])?;
        }
        "multiples" => push_multiples(&mut files.words, first, second)?,
        "header" => files.headers.push(numbers)?,
        "page-headers" => push_headers(&mut files.headers, small(rest))?,
        _ => match &files.image {
            Some(image) => return take_image_line(files.alloc, answer, image, verb),
            None => return Ok(false),
        },
    }
    Ok(true)
}

/// Appends the first multiples of a number, from 0 on.
fn push_multiples(words: &mut Vec<u32>, factor: u32, count: u32) -> Result<(), AllocError> {
    for number in 0..count {
        words.push(number.wrapping_mul(factor))?;
    }
    Ok(())
}

/// Appends the headers of segments of a page each, from the page 16 on.
fn push_headers(headers: &mut Vec<ProgramHeader>, count: u32) -> Result<(), AllocError> {
    for number in 0..count {
        let address = number.wrapping_add(16).wrapping_mul(4096);
        headers.push([1, 0, address, 52, 4096, 5])?;
    }
    Ok(())
}

/// Writes how a refusal is told: its name, and its number and its name.
fn write_fault(answer: &mut Answer, number: u32) {
    for fault in &FAULTS {
        if u32::from(fault.number()) == number {
            answer.shown(fault);
            answer.push(": ");
            answer.told(fault);
        }
    }
}

/// Changes words of a file, each after its place.
fn change(file: &mut [u8], changes: &str) {
    let mut rest = changes;
    for _ in 0..changes.len() {
        let (place, others) = split(rest);
        let (digits, others) = split(others);
        if !place.is_empty() {
            put(file, small(place) as usize, word(digits));
        }
        rest = others;
    }
}

/// Changes the word at a place, whose lowest byte comes first.
fn put(file: &mut [u8], place: usize, word: u32) {
    for (there, byte) in file.iter_mut().skip(place).zip(word.to_le_bytes()) {
        *there = byte;
    }
}

/// Reads the file, and writes the number of its refusal, or 0 where it is read.
fn read_file(answer: &mut Answer, files: &mut Files) {
    match read(files.alloc, &files.file) {
        Ok(image) => {
            files.image = Some(image);
            answer.push("0");
        }
        Err(fault) => answer.count(u64::from(fault.number())),
    }
}
