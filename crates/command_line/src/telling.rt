//! What files are, told of any file.
ghost use Rattle.std.specs.Prelude.{◌≡◌, IfErr, IfOk, OnOk};
ghost use Rattle.std.specs.String.{string_bytes};
ghost use Rattle.elf32_reader.specs.Refusals.{first_refusal};
ghost use Rattle.command_line.specs.Telling.{IsTold, IsUntold, Tells};

use command_requests::{Failure, Target, print};
use elf32_reader::{ElfFault, FILE_LIMIT, read};
use file_facts::facts_text;
use output_files::Files;
use std::alloc::Global;
use std::io::Write;

/// Prints what a file is, and why it is refused as a program, if it is.
pub(crate) fn info<'a, F: Files, W: Write>(
    alloc: Global,
    file: &'a str,
    files: &F,
    stdout: &mut W,
) -> Result<(), Failure<'a>>
    ensures printed { OnOk result (IsTold (F.content files.now file.now) (W.contents stdout.old) (W.contents stdout.new)) }
    ensures failed { IfErr result (IsUntold file.now) }
{
    let text = told(alloc, file, files)?;
    match print(text.as_bytes(), stdout) {
        Ok(()) => Ok(()),
        Err(_) => Err(Failure::CannotWrite(Target::StandardOutput)),
    }
}

/// What a file is.
fn told<'a, F: Files>(alloc: Global, file: &'a str, files: &F) -> Result<String, Failure<'a>>
    ensures { Tells (λ text. string_bytes text) file.now (F.content files.now file.now) result }
{
    let elf = match files.read(alloc, file, FILE_LIMIT) {
        Ok(elf) => elf,
        Err(fault) => return Err(Failure::of_read(Target::Path(file), fault)),
    };
    let refusal = refusal_of(alloc, elf.as_slice())?;
    Ok(facts_text(alloc, elf.as_slice(), refusal)?)
}

/// Why a file is refused as a program, none if it isn't.
///
/// # Errors
///
/// Only out of memory.
fn refusal_of<'a>(alloc: Global, elf: &[u8]) -> Result<Option<ElfFault>, Failure<'a>>
    ensures refusal { IfOk result (λ refusal. refusal ≡ first_refusal elf.now) }
    ensures failed { IfErr result (λ failure. failure ≡ Failure.OutOfMemory) }
{
    match read(alloc, elf) {
        Ok(_) => Ok(None),
        Err(ElfFault::OutOfMemory) => Err(Failure::OutOfMemory),
        Err(fault) => Ok(Some(fault)),
    }
}
