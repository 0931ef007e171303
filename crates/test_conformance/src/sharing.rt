//! The lines of whole runs, from their turns' changes.

use crate::fixtures::assert_same;
use sharing_report::{report, report_text};
use std::alloc::{AllocError, Global};
use std::process::Abort;
use token::TurnChange;

/// The change of a turn: its phase, its thread, and the addresses.
type Change = (u64, u32, &'static [u32]);

/// Changes, and the lines of their report.
type Row = (&'static [Change], &'static str);

/// No byte changed.
static QUIET: [Row; 2] = [(&[], ""), (&[(1, 0, &[]), (2, 0, &[])], "")];

/// One turn changed a byte.
static OF_ONE_TURN: [Row; 3] = [
    (
        &[(1, 0, &[]), (2, 1, &[0x0002_0000]), (2, 2, &[])],
        "page=00020000 turns=1 bytes=1 threads=1 shared=0 clashes=0\n",
    ),
    (
        &[(1, 0, &[0x7FFF_FFF0]), (2, 0, &[])],
        "page=7ffff000 turns=1 bytes=1 threads=1 shared=0 clashes=0\n",
    ),
    (
        &[(1, 0, &[]), (3, 1, &[0x2000_0000])],
        "page=20000000 turns=1 bytes=1 threads=1 shared=0 clashes=0\n",
    ),
];

/// Two threads changed one byte in a phase, or bytes side by side.
static OF_TWO_THREADS: [Row; 2] = [
    (
        &[(2, 1, &[0x0002_0000]), (2, 2, &[0x0002_0000])],
        "page=00020000 turns=2 bytes=2 threads=2 shared=1 clashes=1\n",
    ),
    (
        &[(2, 1, &[0x0002_0000]), (2, 2, &[0x0002_0001])],
        "page=00020000 turns=2 bytes=2 threads=2 shared=1 clashes=0\n",
    ),
];

/// Three threads changed one byte in a phase.
static OF_THREE_THREADS: [Row; 1] = [(
    &[
        (5, 1, &[0x0002_0FFF]),
        (5, 2, &[0x0002_0FFF]),
        (5, 3, &[0x0002_0FFF]),
    ],
    "page=00020000 turns=3 bytes=3 threads=3 shared=1 clashes=1\n",
)];

/// A byte changed in two phases.
static OF_TWO_PHASES: [Row; 2] = [
    (
        &[(2, 1, &[0x0002_0000]), (3, 1, &[0x0002_0000])],
        "page=00020000 turns=2 bytes=2 threads=1 shared=0 clashes=0\n",
    ),
    (
        &[(2, 1, &[0x0002_0000]), (3, 2, &[0x0002_0000])],
        "page=00020000 turns=2 bytes=2 threads=2 shared=0 clashes=0\n",
    ),
];

/// Bytes of three pages changed.
static OF_THREE_PAGES: [Row; 1] = [(
    &[
        (1, 0, &[0x0002_0FFF, 0x0002_1000, 0x0002_1001]),
        (2, 0, &[0x0001_0000]),
    ],
    "page=00010000 turns=1 bytes=1 threads=1 shared=0 clashes=0\npage=00020000 turns=1 bytes=1 threads=1 shared=0 clashes=0\npage=00021000 turns=1 bytes=2 threads=1 shared=0 clashes=0\n",
)];

/// Adds the change of a turn.
fn push_turn(
    changes: &mut Vec<TurnChange>,
    alloc: Global,
    (phase, thread, addresses): Change,
) -> Result<(), AllocError> {
    let change = TurnChange::new(phase, thread, Vec::from_slice(alloc, addresses)?);
    Ok(changes.push(change)?)
}

/// The changes of turns.
fn changes_of(alloc: Global, turns: &[Change]) -> Result<Vec<TurnChange>, AllocError> {
    let mut changes = Vec::new(alloc);
    for turn in turns {
        push_turn(&mut changes, alloc, *turn)?;
    }
    Ok(changes)
}

/// Asserts the lines of a report.
fn assert_lines(
    rt: &impl Abort,
    alloc: Global,
    changes: &[TurnChange],
    lines: &str,
) -> Result<(), AllocError> {
    let text = report_text(alloc, &report(alloc, changes)?)?;
    assert_same(rt, &text.as_str(), &lines);
    Ok(())
}

/// Asserts the lines of each row's report.
fn assert_rows(rt: &impl Abort, alloc: Global, rows: &[Row]) -> Result<(), AllocError> {
    for (turns, lines) in rows {
        assert_lines(rt, alloc, &changes_of(alloc, turns)?, lines)?;
    }
    Ok(())
}

#[test]
fn writes_no_line_without_a_changed_byte(rt: HostRuntime) -> Result<(), AllocError> {
    assert_rows(&rt, rt.alloc(), &QUIET)
}

#[test]
fn writes_pages_of_one_turn(rt: HostRuntime) -> Result<(), AllocError> {
    assert_rows(&rt, rt.alloc(), &OF_ONE_TURN)
}

#[test]
fn tells_a_clash_from_neighbours(rt: HostRuntime) -> Result<(), AllocError> {
    assert_rows(&rt, rt.alloc(), &OF_TWO_THREADS)
}

#[test]
fn counts_a_clash_of_three_threads_once(rt: HostRuntime) -> Result<(), AllocError> {
    assert_rows(&rt, rt.alloc(), &OF_THREE_THREADS)
}

#[test]
fn finds_no_clash_across_phases(rt: HostRuntime) -> Result<(), AllocError> {
    assert_rows(&rt, rt.alloc(), &OF_TWO_PHASES)
}

#[test]
fn orders_pages(rt: HostRuntime) -> Result<(), AllocError> {
    assert_rows(&rt, rt.alloc(), &OF_THREE_PAGES)
}

/// The turns of two threads that count a word up in turn, each once a phase: the second byte changes at each 256th time.
fn counts(alloc: Global) -> Result<Vec<TurnChange>, AllocError> {
    let mut changes = Vec::new(alloc);
    for count in 0..2000_u32 {
        let addresses: &[u32] = if count % 256 == 255 {
            &[0x0002_0000, 0x0002_0001]
        } else {
            &[0x0002_0000]
        };
        push_turn(
            &mut changes,
            alloc,
            (u64::from(count / 2) + 1, count % 2 + 1, addresses),
        )?;
    }
    Ok(changes)
}

#[test]
fn counts_a_counter(rt: HostRuntime) -> Result<(), AllocError> {
    let lines = "page=00020000 turns=2000 bytes=2007 threads=2 shared=1000 clashes=1000\n";
    assert_lines(&rt, rt.alloc(), &counts(rt.alloc())?, lines)
}
