//! What the arguments of a command line ask for, or the line and the status if they ask for nothing.
ghost use Rattle.std.specs.Prelude.{◌≡◌, IfErr, IfOk, map};
ghost use Rattle.command_requests.specs.Asked.{IsAsked};
ghost use Rattle.command_requests.specs.Unasked.{IsUnasked, KeepsUnlessHelp};

use crate::failing::fail;
use crate::parsing::{matched, requested};
use crate::refusing::refuse;
use crate::request::Request;
use std::alloc::Global;
use std::convert::AsStr;
use std::io::Write;

/// What the arguments of a command line ask for, the program's name being the first. If they make no request, it prints
/// help, or says on `stderr` why, and answers the status that the program ends with.
pub fn asked<'a, S: AsStr, W: Write, E: Write>(
    alloc: Global,
    arguments: &'a [S],
    stdout: &mut W,
    stderr: &mut E,
) -> Result<Request<'a>, u8>
    ensures asked { IfOk result (IsAsked (map S.text arguments.entry.now)) }
    ensures kept { IfOk result (λ _. stdout.new ≡ stdout.old) }
    ensures status { IfErr result (IsUnasked (map S.text arguments.entry.now)) }
    ensures output { IfErr result (λ status. KeepsUnlessHelp status (W.contents stdout.old) (W.contents stdout.new)) }
{
    let matches = match matched(alloc, arguments) {
        Ok(matches) => matches,
        Err(error) => return Err(refuse(alloc, arguments, &error, stdout, stderr)),
    };
    match requested(alloc, &matches) {
        Ok(request) => Ok(request),
        Err(failure) => Err(fail(failure, stderr)),
    }
}
