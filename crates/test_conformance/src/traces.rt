//! Lines of the trace that no run of the guest programs has: the names of calls, and numbers at their ends.

use crate::fixtures::assert_same;
use abi::{Code, Reply};
use std::alloc::{AllocError, Global};
use std::process::Abort;
use token::TurnStop;
use tracer::{Turn, line, trace_text};

/// The numbers of calls and their names: the 15 of the call table, and numbers that it doesn't have.
static NAMES: [(u32, &str); 19] = [
    (1, "exit"),
    (2, "thread_exit"),
    (3, "create"),
    (4, "join"),
    (5, "lock"),
    (6, "unlock"),
    (7, "wait"),
    (8, "signal"),
    (9, "broadcast"),
    (10, "barrier"),
    (11, "write"),
    (12, "read"),
    (13, "memory"),
    (14, "sync"),
    (15, "release"),
    (0, "call_00000000"),
    (16, "call_00000010"),
    (99, "call_00000063"),
    (0xFFFF_FFFF, "call_ffffffff"),
];

/// Turns and their lines. No line shows which version a turn worked on a copy of.
static LINES: [(Turn, &str); 3] = [
    (
        Turn {
            phase: 3,
            thread: 255,
            base: 0,
            stop: TurnStop::Call {
                number: 10,
                arguments: [1, 2, 3],
                reply: Reply::Completed {
                    code: Code::CountDiffers,
                    value: None,
                },
            },
            changed: 4096,
            ran: 1 << 40,
        },
        "3 255 barrier 00000001 00000002 00000003 -> 9 changed=4096 ran=1099511627776\n",
    ),
    (
        Turn {
            phase: 4,
            thread: 1,
            base: 0,
            stop: TurnStop::Wake { mutex: 63 },
            changed: 0,
            ran: 0,
        },
        "4 1 wake 63 changed=0 ran=0\n",
    ),
    (
        Turn {
            phase: 1,
            thread: 0,
            base: 0,
            stop: TurnStop::Quantum { pc: 0x0001_0004 },
            changed: 11,
            ran: 1,
        },
        "1 0 quantum 00010004 changed=11 ran=1\n",
    ),
];

/// Asserts the line of a turn.
fn assert_line(rt: &impl Abort, alloc: Global, turn: &Turn, shown: &str) -> Result<(), AllocError> {
    assert_same(rt, &line(alloc, turn)?.as_str(), &shown);
    Ok(())
}

/// Asserts the line of a turn whose call has this number, and this name in the line.
fn assert_name(rt: &impl Abort, alloc: Global, number: u32, name: &str) -> Result<(), AllocError> {
    let reply = Reply::Completed {
        code: Code::NoSuchCall,
        value: None,
    };
    let turn = Turn {
        phase: 1,
        thread: 0,
        base: 0,
        stop: TurnStop::Call {
            number,
            arguments: [0, 0, 0],
            reply,
        },
        changed: 0,
        ran: 1,
    };
    let shown = format!(in alloc; "1 0 {name} 00000000 00000000 00000000 -> 1 changed=0 ran=1\n")?;
    assert_line(rt, alloc, &turn, shown.as_str())
}

/// Asserts the line of each name.
fn assert_names(rt: &impl Abort, alloc: Global) -> Result<(), AllocError> {
    for (number, name) in &NAMES {
        assert_name(rt, alloc, *number, name)?;
    }
    Ok(())
}

#[test]
fn shows_lines(rt: HostRuntime) -> Result<(), AllocError> {
    for (turn, shown) in &LINES {
        assert_line(&rt, rt.alloc(), turn, shown)?;
    }
    assert_names(&rt, rt.alloc())?;
    assert_same(&rt, &trace_text(rt.alloc(), &[])?.as_str(), &"");
    Ok(())
}
