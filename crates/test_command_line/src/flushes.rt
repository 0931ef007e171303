//! Command lines whose standard output is lost by a flush, which the host's never is: `tools/dt test rows` has the others.

use crate::given_files::GivenFiles;
use crate::losing_writer::LosingWriter;
use command_line::perform;
use data_guest_programs::{Program, QUOTIENTS, RACE, SEVEN};
use runtime::WriteSink;
use std::test::Fail;

/// A command line, and what it gives.
#[derive(Clone, Copy)]
struct Row {
    words: &'static [&'static str],
    program: Program,
    schedule: &'static str,
    input: &'static [u8],
    /// How many bytes of standard output a write takes at most, and how many flushes are good.
    output: (usize, u32),
    status: u8,
    /// What standard output has, if that is wanted.
    stdout: Option<&'static [u8]>,
    /// How many good flushes are left.
    left: u32,
}

/// The words of a run that has all texts written.
static RECORDED: [&str; 15] = [
    "dthreads",
    "run",
    "a.elf",
    "--trace",
    "trace",
    "--timeline",
    "timeline",
    "--report",
    "report",
    "--check",
    "findings",
    "--core",
    "core",
    "--digest",
    "digest",
];

/// A command line on a program, whose first flush fails.
fn lost(words: &'static [&'static str], program: Program) -> Row {
    Row {
        words,
        program,
        schedule: "",
        input: b"$?#3f",
        output: (1000, 0),
        status: 124,
        stdout: None,
        left: 0,
    }
}

/// A run that writes 8 bytes, after so many good flushes.
fn run(good_flushes: u32, stdout: &'static [u8]) -> Row {
    Row {
        output: (3, good_flushes),
        stdout: Some(stdout),
        ..lost(&RECORDED, QUOTIENTS)
    }
}

/// A replay of a schedule.
fn replay(schedule: &'static str) -> Row {
    Row {
        schedule,
        ..lost(
            &["dthreads", "replay", "a.elf", "schedule", "--workers", "2"],
            RACE,
        )
    }
}

/// The command lines.
fn rows() -> [Row; 13] {
    [
        lost(&["dthreads", "--help"], SEVEN),
        lost(&["dthreads", "run", "--help"], SEVEN),
        lost(&["dthreads", "--version"], SEVEN),
        lost(&["dthreads", "disasm", "a.elf"], SEVEN),
        lost(&["dthreads", "info", "a.elf"], SEVEN),
        lost(&["dthreads", "debug", "a.elf"], SEVEN),
        replay("draw 0\nstep 0\nstep 0\nstep 0\npost 0\nturn\n"),
        replay("turn\n"),
        run(0, b"\0\0\0"),
        run(1, b"\0\0\0\x80\0\0"),
        run(2, b"\0\0\0\x80\0\0\0\x80"),
        run(3, b"\0\0\0\x80\0\0\0\x80"),
        Row {
            status: 0,
            left: 5,
            ..run(9, b"\0\0\0\x80\0\0\0\x80")
        },
    ]
}

#[test]
fn what_a_flush_loses_is_told(rt: HostRuntime) -> Result<(), Fail> {
    for row in &rows() {
        let (most, good_flushes) = row.output;
        let mut files = GivenFiles {
            alloc: rt.alloc(),
            program: row.program.file(rt.alloc())?,
            schedule: row.schedule,
            is_written: false,
        };
        let mut stdout = WriteSink::new(LosingWriter::new(rt.alloc(), most, good_flushes));
        let mut stderr = Vec::new(rt.alloc());
        let mut stdin = row.input;
        let status = perform(
            &rt,
            rt.alloc(),
            row.words,
            &mut files,
            &mut stdin,
            &mut stdout,
            &mut stderr,
        );
        let line: &[u8] = if row.status == 0 {
            b""
        } else {
            b"cannot write standard output\n"
        };
        let words = row.words;
        let writer = &stdout.writer;
        assert_eq!(rt; status, row.status, "at {words:?}");
        assert!(rt; stderr.as_slice() == line, "at {words:?}");
        assert_eq!(rt; files.is_written, row.status == 0, "at {words:?}");
        assert_eq!(rt; writer.good_flushes, row.left, "at {words:?}");
        if let Some(wanted) = row.stdout {
            assert!(rt; writer.taken.as_slice() == wanted, "at {words:?}");
        }
    }
    Ok(())
}
