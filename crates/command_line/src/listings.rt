//! Listings of the programs of files.
ghost use Rattle.std.specs.Prelude.{◌≡◌, OnOk, IfErr};
ghost use Rattle.std.specs.String.{string_bytes};
ghost use Rattle.command_requests.specs.Status.{failure_status};
ghost use Rattle.command_line.specs.Listings.{IsListed, IsUnlisted, Lists};

use command_requests::{Failure, Target, fail, print};
use disassembler::listing;
use elf32_reader::{ElfFault, FILE_LIMIT, read};
use output_files::Files;
use std::alloc::Global;
use std::io::Write;

/// Prints the listing of the program of a file.
pub(crate) fn disasm<'a, F: Files, W: Write>(
    alloc: Global,
    file: &'a str,
    files: &F,
    stdout: &mut W,
) -> Result<(), Failure<'a>>
    ensures printed { OnOk result (IsListed (F.content files.now file.now) (W.contents stdout.old) (W.contents stdout.new)) }
    ensures failed { IfErr result (IsUnlisted file.now (F.content files.now file.now)) }
{
    let text = listed(alloc, file, files)?;
    match print(text.as_bytes(), stdout) {
        Ok(()) => Ok(()),
        Err(_) => Err(Failure::CannotWrite(Target::StandardOutput)),
    }
}

/// The listing of the program of a file.
fn listed<'a, F: Files>(alloc: Global, file: &'a str, files: &F) -> Result<String, Failure<'a>>
    ensures { Lists (λ text. string_bytes text) file.now (F.content files.now file.now) result }
{
    let elf = match files.read(alloc, file, FILE_LIMIT) {
        Ok(elf) => elf,
        Err(fault) => return Err(Failure::of_read(Target::Path(file), fault)),
    };
    let image = match read(alloc, elf.as_slice()) {
        Ok(image) => image,
        Err(ElfFault::OutOfMemory) => return Err(Failure::OutOfMemory),
        Err(fault) => return Err(Failure::ElfRefused(fault)),
    };
    match listing(alloc, &image) {
        Ok(text) => Ok(text),
        Err(_) => Err(Failure::OutOfMemory),
    }
}

/// Says why there is no listing, and answers the status.
pub(crate) fn conclude_listing<E: Write>(answer: Result<(), Failure<'_>>, stderr: &mut E) -> u8
    ensures printed { OnOk answer.entry (result ≡ 0) }
    ensures failed { IfErr answer.entry (λ failure. result ≡ failure_status failure) }
{
    let Err(failure) = answer else {
        return 0;
    };
    fail(failure, stderr)
}
