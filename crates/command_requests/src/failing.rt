//! Writes the line of a failure and gives its status. Touches standard error alone.
ghost use Rattle.std.specs.Prelude.{◌≡◌};
ghost use Rattle.command_requests.specs.Status.{failure_status};

use crate::failure::Failure;
use std::io::Write;

/// Writes the line of a failure, and answers its status.
pub fn fail<E: Write>(failure: Failure<'_>, stderr: &mut E) -> u8
    ensures { result ≡ failure_status failure.entry }
{
    let _ = writeln!(stderr, "{failure}");
    failure.status()
}
