//! The status and the line for each way that a command ends.

use crate::failing_writer::FailingWriter;
use command_line::{Failure, Target, conclude};
use elf32_reader::ElfFault;
use hart::{Cause, Trap};
use output_files::FileName;
use runtime::RunOutcome;

/// Outcomes, and the status and the line of each.
static OUTCOMES: [(RunOutcome, u8, &str); 7] = [
    (RunOutcome::Exit(7), 7, ""),
    (RunOutcome::Exit(256), 0, ""),
    (RunOutcome::Exit(0xffff_ffff), 255, ""),
    (RunOutcome::Finished(2000), 208, ""),
    (
        RunOutcome::Trap {
            thread: 1,
            pc: 0x0001_0060,
            trap: Trap {
                cause: Cause::Breakpoint,
                value: 0,
            },
        },
        120,
        "trap thread=1 pc=00010060 cause=3 value=00000000\n",
    ),
    (
        RunOutcome::Trap {
            thread: 255,
            pc: 0xffff_fffc,
            trap: Trap {
                cause: Cause::BoundReached,
                value: 0xdead_beef,
            },
        },
        120,
        "trap thread=255 pc=fffffffc cause=16 value=deadbeef\n",
    ),
    (RunOutcome::Deadlock, 121, "deadlock\n"),
];

#[test]
fn outcomes_have_a_status_and_a_line(rt: HostRuntime) {
    for (outcome, status, line) in OUTCOMES {
        let mut stderr = Vec::new(rt.alloc());
        assert_eq!(rt;
            conclude(Ok(outcome), &mut stderr),
            status,
            "at {outcome:?}"
        );
        assert!(rt; stderr.as_slice() == line.as_bytes(), "at {outcome:?}");
        assert_eq!(rt;
            conclude(Ok(outcome), &mut FailingWriter),
            status,
            "at {outcome:?}"
        );
    }
}

/// Failures, and the status and the line of each.
static FAILURES: [(Failure<'static>, u8, &str); 9] = [
    (
        Failure::OneFile(FileName::At("a b"), FileName::PartOf("a")),
        2,
        "error: a b and the .part of a name one file\n",
    ),
    (
        Failure::ElfRefused(ElfFault::BadEntry),
        123,
        "elf refused: 20 BadEntry\n",
    ),
    (
        Failure::InputTooLarge,
        124,
        "input too large: over 16777216 bytes\n",
    ),
    (
        Failure::CannotRead(Target::Path("a b")),
        124,
        "cannot read a b\n",
    ),
    (
        Failure::CannotRead(Target::StandardInput),
        124,
        "cannot read standard input\n",
    ),
    (
        Failure::CannotWrite(Target::Path("t")),
        124,
        "cannot write t\n",
    ),
    (
        Failure::CannotWrite(Target::PartOf("t")),
        124,
        "cannot write t.part\n",
    ),
    (
        Failure::CannotWrite(Target::StandardOutput),
        124,
        "cannot write standard output\n",
    ),
    (Failure::OutOfMemory, 125, "out of memory\n"),
];

#[test]
fn failures_have_a_status_and_a_line(rt: HostRuntime) {
    for (failure, status, line) in FAILURES {
        let mut stderr = Vec::new(rt.alloc());
        assert_eq!(rt;
            conclude(Err(failure), &mut stderr),
            status,
            "at {failure:?}"
        );
        assert!(rt; stderr.as_slice() == line.as_bytes(), "at {failure:?}");
        assert_eq!(rt;
            conclude(Err(failure), &mut FailingWriter),
            status,
            "at {failure:?}"
        );
    }
}
