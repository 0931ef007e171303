//! The failures of a command: the line on standard error, and the status.
ghost use Rattle.std.specs.Prelude.{◌≡◌};

use crate::target::Target;
use elf32_reader::ElfFault;
use output_files::{BeginFault, FileName, ReadFault, WriteFault};
use std::alloc::AllocError;
use thiserror::Error;

/// Why a request was not done. Its text is what the user is told.
#[derive(Clone, Copy, Debug, Error)]
pub enum Failure<'a> {
    /// The arguments of the command line are not all text.
    #[error("error: invalid UTF-8 was detected in one or more arguments")]
    NotText,
    /// Two arguments name one file.
    #[error("error: {0} and {1} name one file")]
    OneFile(FileName<'a>, FileName<'a>),
    /// This value of the option `--shuffle` says no schedule's number.
    #[error("error: invalid value '{0}' for '--shuffle <SHUFFLE>': expected N[:A-P][/C] with N and A from 1\n\nFor more information, try '--help'.")]
    InvalidShuffle(&'a str),
    /// So many runs, from this schedule's number on, need numbers above the last one.
    #[error("error: {runs} runs from number {from} on go beyond the last number, 4294967295\n\nFor more information, try '--help'.")]
    BeyondLastNumber {
        /// The number of the first run.
        from: u32,
        /// How many runs there are.
        runs: u32,
    },
    /// A number of the run is outside its range.
    #[error("error: a number is outside its range")]
    OutsideRange,
    /// The file is not a program that can be run.
    #[error("elf refused: {0}")]
    ElfRefused(ElfFault),
    /// The guest's input is over its limit.
    #[error("input too large: over 16777216 bytes")]
    InputTooLarge,
    #[error("cannot read {0}")]
    CannotRead(Target<'a>),
    #[error("cannot write {0}")]
    CannotWrite(Target<'a>),
    #[error("out of memory")]
    OutOfMemory,
}

impl<'a> Failure<'a> {
    /// The failure that a fault of a read from this target is.
    pub fn of_read(target: Target<'a>, fault: ReadFault) -> Self
        ensures failed { fault ≡ ReadFault.ReadFailed → result ≡ Failure.CannotRead target.entry }
        ensures memory { fault ≡ ReadFault.OutOfMemory → result ≡ Failure.OutOfMemory }
    {
        match fault {
            ReadFault::ReadFailed => Failure::CannotRead(target),
            ReadFault::OutOfMemory => Failure::OutOfMemory,
        }
    }

    /// The failure that a fault of a write to this target is.
    pub fn of_write(target: Target<'a>, fault: WriteFault) -> Self
        ensures failed { fault ≡ WriteFault.WriteFailed → result ≡ Failure.CannotWrite target.entry }
        ensures memory { fault ≡ WriteFault.OutOfMemory → result ≡ Failure.OutOfMemory }
    {
        match fault {
            WriteFault::WriteFailed => Failure::CannotWrite(target),
            WriteFault::OutOfMemory => Failure::OutOfMemory,
        }
    }

    /// The failure that a fault is for which no output was begun for the file at a path.
    pub fn of_begin(path: &'a str, fault: BeginFault) -> Self
        ensures blocked { fault ≡ BeginFault.PartBlocked → result ≡ Failure.CannotWrite (Target.PartOf path.entry) }
        ensures failed { fault ≡ BeginFault.Write WriteFault.WriteFailed → result ≡ Failure.CannotWrite (Target.Path path.entry) }
        ensures memory { fault ≡ BeginFault.Write WriteFault.OutOfMemory → result ≡ Failure.OutOfMemory }
    {
        match fault {
            BeginFault::PartBlocked => Failure::CannotWrite(Target::PartOf(path)),
            BeginFault::Write(fault) => Failure::of_write(Target::Path(path), fault),
        }
    }
}

impl Failure<'_> {
    ghost use Rattle.command_requests.specs.Status.{failure_status};

    /// The status that the program ends with: 2 for wrong arguments, and else 123 to 125.
    pub fn status(&self) -> u8
        ensures { result ≡ failure_status self.now }
    {
        match self {
            Failure::NotText
            | Failure::OneFile(..)
            | Failure::InvalidShuffle(_)
            | Failure::BeyondLastNumber { .. }
            | Failure::OutsideRange => 2,
            Failure::ElfRefused(_) => 123,
            Failure::InputTooLarge | Failure::CannotRead(_) | Failure::CannotWrite(_) => 124,
            Failure::OutOfMemory => 125,
        }
    }
}

impl From<AllocError> for Failure<'_> {
    ghost use Rattle.command_requests.specs.declared.failure.Failure.TheVariants.{OutOfMemory};

    ghost from_gives = { λ _ failure. failure ≡ OutOfMemory };

    fn from(_error: AllocError) -> Self {
        Failure::OutOfMemory
    }
}
