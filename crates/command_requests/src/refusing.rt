//! What is told of arguments that make no request.
ghost use Rattle.std.specs.Prelude.{◌≡◌, IfErr, OnOk};
ghost use Rattle.clap.specs.Values.{kind_of};
ghost use Rattle.command_requests.specs.Unasked.{IsFollowed, IsStatusOf, IsUnprinted, KeepsUnlessHelp};

use crate::failing::fail;
use crate::failure::Failure;
use crate::printing::print;
use crate::target::Target;
use crate::telling::tell;
use clap::Error;
use clap::error::ErrorKind;
use std::alloc::Global;
use std::convert::AsStr;
use std::io::Write;

/// The status of a command line that could not be read.
const WRONG_ARGUMENTS: u8 = 2;

/// Answers arguments that make no request: with help where they ask for it, and else with what is wrong.
pub(crate) fn refuse<S: AsStr, W: Write, E: Write>(
    alloc: Global,
    arguments: &[S],
    error: &Error,
    stdout: &mut W,
    stderr: &mut E,
) -> u8
    ensures status { IsStatusOf (kind_of error.now) result }
    ensures output { KeepsUnlessHelp result (W.contents stdout.old) (W.contents stdout.new) }
{
    if error.kind() == ErrorKind::OutOfMemory {
        return fail(Failure::OutOfMemory, stderr);
    }
    if error.use_stderr() {
        tell(alloc, arguments, error, stderr);
        return WRONG_ARGUMENTS;
    }
    match write_help(alloc, error, stdout) {
        Ok(()) => 0,
        Err(failure) => fail(failure, stderr),
    }
}

/// Prints help or the version.
fn write_help<'a, W: Write>(alloc: Global, help: &Error, stdout: &mut W) -> Result<(), Failure<'a>>
    ensures printed { OnOk result (IsFollowed (W.contents stdout.old) (W.contents stdout.new)) }
    ensures failed { IfErr result (IsUnprinted (W.contents stdout.old) (W.contents stdout.new)) }
{
    let text = help.to_string(alloc)?;
    print(text.as_bytes(), stdout).map_err(|_| Failure::CannotWrite(Target::StandardOutput))
}
