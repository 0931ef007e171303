//! The failures of a read: the read itself, or out of memory.
use std::alloc::AllocError;

/// Why bytes could not be read.
#[derive(Clone, Copy, Debug, PartialEq, Eq)]
pub enum ReadFault {
    /// A read failed, or there was nothing to read from.
    ReadFailed,
    /// There was no memory for the bytes.
    OutOfMemory,
}

impl From<AllocError> for ReadFault {
    ghost use Rattle.output_files.specs.declared.read_fault.ReadFault.TheVariants.{OutOfMemory};
    ghost use Rattle.std.specs.Prelude.{◌≡◌};

    ghost from_gives = { λ _ fault. fault ≡ OutOfMemory };

    fn from(_error: AllocError) -> ReadFault {
        ReadFault::OutOfMemory
    }
}
