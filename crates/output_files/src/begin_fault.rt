//! The failures of an output's beginning: its part is blocked, or the file can't be written.
use crate::write_fault::WriteFault;
use std::alloc::AllocError;
use std::io;

/// Why no output was begun for a file.
#[derive(Clone, Copy, Debug, PartialEq, Eq)]
pub enum BeginFault {
    /// Something that can't be removed has the name of the file's part.
    PartBlocked,
    /// The file can't be written, or memory ran out.
    Write(WriteFault),
}

impl From<AllocError> for BeginFault {
    ghost use Rattle.output_files.specs.declared.begin_fault.BeginFault.TheVariants.{Write};
    ghost use Rattle.output_files.specs.declared.write_fault.WriteFault.TheVariants.{OutOfMemory};
    ghost use Rattle.std.specs.Prelude.{◌≡◌};

    ghost from_gives = { λ _ fault. fault ≡ Write OutOfMemory };

    fn from(_error: AllocError) -> BeginFault {
        BeginFault::Write(WriteFault::OutOfMemory)
    }
}

impl From<io::Error> for BeginFault {
    fn from(error: io::Error) -> BeginFault {
        BeginFault::Write(WriteFault::from(error))
    }
}
