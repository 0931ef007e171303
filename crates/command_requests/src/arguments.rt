//! The arguments of the process, as texts.
ghost use Rattle.std.specs.Prelude.{◌≡◌, ◌⊎◌, IfErr};

use crate::failure::Failure;
use std::alloc::{Alloc, Global};
use std::env;
use std::io::ErrorKind;
use std::rt::Env;

/// The arguments of the command line, the program's name first. Arguments that are not all text are refused
/// as a whole.
pub fn arguments_of<R: Env + AllocGlobal>(rt: &R) -> Result<Vec<String>, Failure<'static>>
    ensures { IfErr result (λ failure. (failure ≡ Failure.NotText) ⊎ (failure ≡ Failure.OutOfMemory)) }
{
    match env::args(rt) {
        Ok(arguments) => arguments
            .collect(rt.alloc())
            .map_err(|_| Failure::OutOfMemory),
        Err(error) if error.kind() == ErrorKind::OutOfMemory => Err(Failure::OutOfMemory),
        Err(_) => Err(Failure::NotText),
    }
}
