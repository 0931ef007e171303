//! The failures of a write: the write itself, or out of memory.
use std::alloc::AllocError;
use std::io;
use std::io::ErrorKind;

/// Why bytes could not be written.
#[derive(Clone, Copy, Debug, PartialEq, Eq)]
pub enum WriteFault {
    /// A write failed, or there was nothing to write to.
    WriteFailed,
    /// There was no memory for the write.
    OutOfMemory,
}

impl From<AllocError> for WriteFault {
    ghost use Rattle.output_files.specs.declared.write_fault.WriteFault.TheVariants.{OutOfMemory};
    ghost use Rattle.std.specs.Prelude.{◌≡◌};

    ghost from_gives = { λ _ fault. fault ≡ OutOfMemory };

    fn from(_error: AllocError) -> WriteFault {
        WriteFault::OutOfMemory
    }
}

impl From<io::Error> for WriteFault {
    fn from(error: io::Error) -> WriteFault {
        match error.kind() {
            ErrorKind::OutOfMemory => WriteFault::OutOfMemory,
            _ => WriteFault::WriteFailed,
        }
    }
}
