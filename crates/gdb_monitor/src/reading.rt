//! Reads the words of a command.
ghost use Rattle.std.specs.Prelude.{◌≡◌, IfOk, map};
ghost use Rattle.gdb_monitor.specs.Commands.{address_in, asked_by, command_in, command_read, decimal_in, hexadecimal_in, number_in, span_in, words_of};

use crate::command::{Command, Span};
use crate::name::Name;
use std::alloc::{AllocError, Global};

/// The command of a text.
pub fn command_of(alloc: Global, text: &[u8]) -> Result<Command, AllocError>
    ensures { IfOk result (λ command. command ≡ command_in text.now) }
{
    let words = words_of(alloc, text)?;
    Ok(read(words.as_slice()).unwrap_or(Command::NoNumber))
}

/// The words of a text, with blanks between.
fn words_of(alloc: Global, text: &[u8]) -> Result<Vec<&[u8]>, AllocError>
    ensures { IfOk result (λ words. map (λ word. word.now) words.items ≡ words_of text.now) }
{
    text.split(|byte| *byte == b' ')
        .filter(|word| !word.is_empty())
        .collect(alloc)
}

/// The command of some words, none if a number of it can't be read.
fn read(words: &[&[u8]]) -> Option<Command>
    ensures { result ≡ command_read (map (λ word. word.now) words.now) }
{
    match words {
        [] => Some(Command::Help),
        [first, arguments @ ..] => match Name::of_word(first) {
            Some(name) => asked(name, arguments),
            None => Some(Command::Unknown),
        },
    }
}

/// The command of this name with these arguments, none if a number of them can't be read.
fn asked(name: Name, arguments: &[&[u8]]) -> Option<Command>
    ensures { result ≡ asked_by name (map (λ word. word.now) arguments.now) }
{
    Some(match (name, arguments) {
        (Name::Help, []) => Command::Help,
        (Name::Where | Name::When, []) => Command::Where,
        (Name::Turn, [turn]) => Command::Turn {
            turn: decimal(turn)?,
            count: 0,
        },
        (Name::Turn, [turn, count]) => Command::Turn {
            turn: decimal(turn)?,
            count: decimal(count)?,
        },
        (Name::Go, [step]) => Command::Go(decimal(step)?),
        (Name::Trace, []) => Command::Trace {
            first: 1,
            last: u64::MAX,
        },
        (Name::Trace, [first]) => Command::Trace {
            first: decimal(first)?,
            last: u64::MAX,
        },
        (Name::Trace, [first, last]) => Command::Trace {
            first: decimal(first)?,
            last: decimal(last)?,
        },
        (Name::Threads, []) => Command::Threads,
        (Name::Locks, []) => Command::Locks,
        (Name::Writers, span) => Command::Writers(span_of(span)?),
        (Name::Shared, span) => Command::Shared(span_of(span)?),
        (Name::Output, []) => Command::Output,
        _ => Command::Unknown,
    })
}

/// The addresses that the words ADDR and N name, four if N isn't given.
fn span_of(words: &[&[u8]]) -> Option<Span>
    ensures { result ≡ span_in (map (λ word. word.now) words.now) }
{
    match words {
        [start] => Some(Span {
            start: address_of(start)?,
            count: 4,
        }),
        [start, count] => Some(Span {
            start: address_of(start)?,
            count: address_of(count)?,
        }),
        _ => None,
    }
}

/// The address of a text.
fn address_of(text: &[u8]) -> Option<u32>
    ensures { result ≡ address_in text.now }
{
    u32::try_from(number_of(text)?).ok()
}

/// The number of a text, in hexadecimal digits if it begins with 0x.
fn number_of(text: &[u8]) -> Option<u64>
    ensures { result ≡ number_in text.now }
{
    if text.starts_with(b"0x") || text.starts_with(b"0X") {
        hexadecimal(&text[2..])
    } else {
        decimal(text)
    }
}

/// The number of these hexadecimal digits, none if they are no number.
fn hexadecimal(digits: &[u8]) -> Option<u64>
    ensures { result ≡ hexadecimal_in digits.now }
{
    gdb_packets::number(digits)
}

/// The number of these decimal digits, none if they are no number of 64 bits.
pub(crate) fn decimal(digits: &[u8]) -> Option<u64>
    ensures { result ≡ decimal_in digits.now }
{
    if digits.is_empty() {
        return None;
    }
    let mut value = 0u64;
    for digit in digits {
        if !digit.is_ascii_digit() {
            return None;
        }
        value = value
            .checked_mul(10)?
            .checked_add(u64::from(*digit - b'0'))?;
    }
    Some(value)
}
