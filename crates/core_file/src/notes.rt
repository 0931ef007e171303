//! The notes of a core file: one for each thread, with its registers.
ghost use Rattle.std.specs.Prelude.{◌≡◌, ◌++◌, IfOk, OnOk};
ghost use Rattle.core_file.specs.Fields.{words};
ghost use Rattle.core_file.specs.Notes.{note, notes_of, prstatus, registers_of};

use crate::core_thread::CoreThread;
use crate::numbers::put_words;
use hart::Hart;
use std::alloc::{AllocError, Global};

/// The bytes of a name with the zero that ends it.
const NAME_SIZE: u32 = 5;

/// The bytes of a description: struct elf_prstatus of 32-bit RISC-V.
const PRSTATUS_SIZE: u32 = 204;

/// The type of a note with registers.
const NT_PRSTATUS: u32 = 1;

/// The notes of threads.
pub(crate) fn notes_of(alloc: Global, threads: &[CoreThread]) -> Result<Vec<u8>, AllocError>
    ensures { IfOk result (λ notes. notes.items ≡ notes_of threads.now) }
{
    let mut notes = Vec::new(alloc);
    for thread in threads {
        put_note(&mut notes, thread)?;
    }
    Ok(notes)
}

/// Appends the note of a thread.
#[tactic(auto, unfolding(crate::specs::Notes::note))]
fn put_note(notes: &mut Vec<u8>, thread: &CoreThread) -> Result<(), AllocError>
    ensures { OnOk result (notes.new.items ≡ notes.old.items ++ note thread.now) }
{
    put_words(notes, &[NAME_SIZE, PRSTATUS_SIZE, NT_PRSTATUS])?;
    notes.extend_from_slice(b"CORE\0\0\0\0")?;
    put_prstatus(notes, thread)
}

/// Appends the description of a thread.
#[tactic(auto, unfolding(crate::specs::Notes::prstatus))]
fn put_prstatus(notes: &mut Vec<u8>, thread: &CoreThread) -> Result<(), AllocError>
    ensures { OnOk result (notes.new.items ≡ notes.old.items ++ prstatus thread.now) }
{
    put_words(
        notes,
        &[0, 0, 0, u32::from(thread.signal), 0, 0, thread.pid],
    )?;
    put_words(notes, &[0; 11])?;
    put_registers(notes, &thread.hart)?;
    put_words(notes, &[0])
}

/// Appends pc and x1 to x31.
fn put_registers(notes: &mut Vec<u8>, hart: &Hart) -> Result<(), AllocError>
    ensures { OnOk result (notes.new.items ≡ notes.old.items ++ words (registers_of hart.now)) }
{
    put_words(notes, &[hart.pc()])?;
    for register in 1..32 {
        put_words(notes, &[hart.reg(register)])?;
    }
    Ok(())
}
