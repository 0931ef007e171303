//! The rows: what the recorders of locks say of histories, against texts that are worked out by hand.
use crate::of_locks::histories::{ROWS, SYMBOLS};
use crate::of_symbols::file_of;
use anyhow::Result;
use races::{HintEvent, LockOrder, MisuseRecorder, ObservedEvent, write_misuse, write_order};
use std::alloc::{AllocError, Global};
use symbols::Symbols;

/// An event of a history.
#[derive(Clone, Copy)]
pub enum Told {
    /// A thread calls the library, from a place in the program.
    Caller(u8, u32),
    /// The library gives a hint.
    Hint(HintEvent),
}

/// A row's name, its history, and the text of its faults and then of its misuses.
pub struct Row {
    pub name: &'static str,
    pub history: &'static [Told],
    pub text: &'static str,
}

/// Prints a line for each row.
pub fn show_rows<R: Print>(rt: &R) -> Result<()>
where
    R: AllocGlobal,
{
    let symbols = Symbols::read(rt.alloc(), &file_of(rt.alloc(), &SYMBOLS)?)?;
    for row in &ROWS {
        show_row(rt, row, &symbols)?;
    }
    Ok(())
}

/// Prints a row's line: `NAME: ok`, or the text that it gave.
fn show_row<R: Print>(rt: &R, row: &Row, symbols: &Symbols) -> Result<()>
where
    R: AllocGlobal,
{
    let said = said_of(rt.alloc(), row, symbols)?;
    Ok(println!(rt; "{}: {said}", row.name)?)
}

/// What is said of a row.
fn said_of(alloc: Global, row: &Row, symbols: &Symbols) -> Result<String, AllocError> {
    let mut text = String::new(alloc);
    write_faults(alloc, &mut text, row.history, symbols)?;
    write_misuses(alloc, &mut text, row.history, symbols)?;
    if text.as_str() == row.text {
        return String::from_str(alloc, "ok");
    }
    format!(in alloc; "gave\n{text}")
}

/// Appends the lines of a history's faults of the order of locks.
fn write_faults(
    alloc: Global,
    text: &mut String,
    history: &[Told],
    symbols: &Symbols,
) -> Result<(), AllocError> {
    let mut recorder = LockOrder::new(alloc)?;
    for told in history {
        recorder.record(&event_of(*told))?;
    }
    for fault in &recorder.found()? {
        write_order(text, fault, symbols)?;
    }
    Ok(())
}

/// Appends the lines of a history's misuses.
fn write_misuses(
    alloc: Global,
    text: &mut String,
    history: &[Told],
    symbols: &Symbols,
) -> Result<(), AllocError> {
    let mut recorder = MisuseRecorder::new(alloc)?;
    for told in history {
        recorder.record(&event_of(*told))?;
    }
    for misuse in &recorder.found()? {
        write_misuse(text, misuse, symbols)?;
    }
    Ok(())
}

/// The event that a recorder is told.
fn event_of(told: Told) -> ObservedEvent {
    match told {
        Told::Caller(thread, pc) => ObservedEvent::Caller { thread, pc },
        Told::Hint(hint) => ObservedEvent::Hint(hint),
    }
}
