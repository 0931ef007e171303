//! The bytes of a program's file, and the guest's input.
ghost use Rattle.std.specs.Prelude.{◌≡◌, ◌+◌, IfErr, IfOk};
ghost use Rattle.output_files.specs.Taken.{TakesAtMost};
ghost use Rattle.abi.specs.Limits as limit;
ghost use Rattle.command_line.specs.Given.{AreGiven, IsUngiven};

use command_requests::{Failure, Target};
use elf32_reader::FILE_LIMIT;
use output_files::{Files, read_upto};
use runtime::MAX_INPUT;
use std::alloc::Global;
use std::io::Read;

/// The bytes of a program's file, and the guest's input.
#[derive(Drop)]
pub(crate) struct Given {
    /// The file's bytes.
    pub(crate) elf: Vec<u8>,
    /// The input.
    pub(crate) input: Vec<u8>,
}

/// Reads the program's file and then the input, which is to be within its limit.
pub(crate) fn read_given<'a, F: Files, R: Read>(
    alloc: Global,
    file: &'a str,
    files: &F,
    stdin: &mut R,
) -> Result<Given, Failure<'a>>
    ensures input { TakesAtMost (limit.input + 1) (R.remaining stdin.old) (R.remaining stdin.new) }
    ensures given { IfOk result (λ given. AreGiven (F.content files.now file.now) (R.remaining stdin.old)
        (record { elf = given.elf.items; input = given.input.items })) }
    ensures failed { IfErr result (IsUngiven file.now (R.remaining stdin.old)) }
{
    let elf = match files.read(alloc, file, FILE_LIMIT) {
        Ok(elf) => elf,
        Err(fault) => return Err(Failure::of_read(Target::Path(file), fault)),
    };
    let input = match read_upto(alloc, stdin, MAX_INPUT) {
        Ok(input) => input,
        Err(fault) => return Err(Failure::of_read(Target::StandardInput, fault)),
    };
    if input.len() > MAX_INPUT {
        return Err(Failure::InputTooLarge);
    }
    Ok(Given { elf, input })
}
