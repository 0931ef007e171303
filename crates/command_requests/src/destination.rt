//! Where a text goes: standard output, or a file.
use crate::target::Target;

/// Where a text goes that a run leaves beside its outcome.
#[derive(Clone, Copy)]
pub enum Destination<'a> {
    /// Standard output, after the guest's output.
    StandardOutput,
    /// The file at this path.
    File(&'a str),
}

impl<'a> Destination<'a> {
    ghost use Rattle.std.specs.Prelude.{◌≡◌};
    ghost use Rattle.command_requests.specs.Destination.{destination_of, target_of};

    /// The destination that an argument names: standard output is `-`.
    pub fn named(argument: &'a str) -> Self
        ensures { result ≡ destination_of argument.entry }
    {
        match argument {
            "-" => Destination::StandardOutput,
            path => Destination::File(path),
        }
    }

    /// What a text for it is written to.
    pub fn target(self) -> Target<'a>
        ensures { result ≡ target_of self.entry }
    {
        match self {
            Destination::StandardOutput => Target::StandardOutput,
            Destination::File(path) => Target::Path(path),
        }
    }
}
