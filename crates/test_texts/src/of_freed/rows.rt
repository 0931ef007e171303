//! The rows: what the recorder says of histories, against texts that are worked out by hand.
use crate::of_freed::histories::{ROWS, SYMBOLS};
use crate::of_symbols::file_of;
use anyhow::Result;
use races::{Access, FreedRecorder, HintEvent, ObservedEvent, write_freed};
use std::alloc::{AllocError, Global};
use symbols::Symbols;

/// An event of a history. Its fields are those of the recorder's event of the same name, in their order.
#[derive(Clone, Copy)]
pub enum Told {
    /// A thread loads or stores bytes of a word.
    Access(Access),
    /// A thread enters a library region.
    Enter(u8),
    /// A thread leaves a library region.
    Leave(u8),
    /// Bytes from an address on begin to live.
    Fresh(u32, u32),
    /// A thread calls the library, from a place in the program.
    Caller(u8, u32),
    /// A thread's next hint is about so many bytes.
    Length(u8, u32),
    /// The library gives a hint.
    Hint(HintEvent),
}

/// A row's name, its history, and the text of what is found.
pub struct Row {
    pub name: &'static str,
    pub history: &'static [Told],
    pub text: &'static str,
}

/// Prints a line for each row.
pub fn show_rows<R: Print>(rt: &R) -> Result<()>
where
    R: AllocGlobal,
{
    let symbols = Symbols::read(rt.alloc(), &file_of(rt.alloc(), &SYMBOLS)?)?;
    for row in &ROWS {
        show_row(rt, row, &symbols)?;
    }
    Ok(())
}

/// Prints a row's line: `NAME: ok`, or the text that it gave.
fn show_row<R: Print>(rt: &R, row: &Row, symbols: &Symbols) -> Result<()>
where
    R: AllocGlobal,
{
    let said = said_of(rt.alloc(), row, symbols)?;
    Ok(println!(rt; "{}: {said}", row.name)?)
}

/// What is said of a row.
fn said_of(alloc: Global, row: &Row, symbols: &Symbols) -> Result<String, AllocError> {
    let mut text = String::new(alloc);
    write_found(alloc, &mut text, row.history, symbols)?;
    if text.as_str() == row.text {
        return String::from_str(alloc, "ok");
    }
    format!(in alloc; "gave\n{text}")
}

/// Appends the lines of what is found in a history.
fn write_found(
    alloc: Global,
    text: &mut String,
    history: &[Told],
    symbols: &Symbols,
) -> Result<(), AllocError> {
    let mut recorder = FreedRecorder::new(alloc)?;
    for told in history {
        match told {
            Told::Access(access) => recorder.record_access(access)?,
            _ => recorder.record(&event_of(*told))?,
        }
    }
    for found in &recorder.found()? {
        write_freed(text, found, symbols)?;
    }
    Ok(())
}

/// The event that a recorder is told.
fn event_of(told: Told) -> ObservedEvent {
    match told {
        Told::Access(access) => ObservedEvent::Access(access),
        Told::Enter(thread) => ObservedEvent::Enter { thread },
        Told::Leave(thread) => ObservedEvent::Leave { thread },
        Told::Fresh(address, length) => ObservedEvent::Fresh { address, length },
        Told::Caller(thread, pc) => ObservedEvent::Caller { thread, pc },
        Told::Length(thread, length) => ObservedEvent::Length { thread, length },
        Told::Hint(hint) => ObservedEvent::Hint(hint),
    }
}
