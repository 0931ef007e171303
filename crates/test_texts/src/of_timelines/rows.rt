//! Runs whose turns are written by hand.

use crate::of_timelines::step::{
    Answer, BARRIER, BROADCAST, CREATE, EXIT, JOIN, LOCK, SIGNAL, SYNC, Step, THREAD_EXIT, UNLOCK,
    WAIT,
};
use abi::Code;

/// A run: its name, and its turns.
pub struct Row {
    pub name: &'static str,
    pub steps: &'static [Step],
}

const A_JOIN: [Step; 4] = [
    Step::Call(1, 0, CREATE, [0x10000, 0, 0], Answer::Value(1), 3),
    Step::Call(2, 0, JOIN, [1, 0, 0], Answer::Waits, 2),
    Step::Call(2, 1, THREAD_EXIT, [7, 0, 0], Answer::Ends, 10),
    Step::Call(3, 0, EXIT, [0, 0, 0], Answer::Ends, 4),
];

const A_TURN_THAT_WAITS_FOR_THE_TOKEN: [Step; 6] = [
    Step::Call(1, 0, CREATE, [0x10000, 0, 0], Answer::Value(1), 5),
    Step::Call(2, 0, SYNC, [0, 0, 0], Answer::Done, 100),
    Step::Call(2, 1, SYNC, [0, 0, 0], Answer::Done, 1),
    Step::Call(3, 0, SYNC, [0, 0, 0], Answer::Done, 1),
    Step::Call(3, 1, THREAD_EXIT, [0, 0, 0], Answer::Ends, 30),
    Step::Call(4, 0, EXIT, [3, 0, 0], Answer::Ends, 2),
];

const A_KEEPER: [Step; 7] = [
    Step::Call(1, 0, CREATE, [0x10000, 0, 0], Answer::Value(1), 1),
    Step::Call(2, 0, LOCK, [3, 0, 0], Answer::Done, 4),
    Step::Call(2, 0, UNLOCK, [3, 0, 0], Answer::Done, 20),
    Step::Call(2, 1, LOCK, [3, 0, 0], Answer::Done, 6),
    Step::Call(2, 1, LOCK, [3, 0, 0], Answer::Refused(Code::AlreadyHeld), 8),
    Step::Call(2, 1, UNLOCK, [3, 0, 0], Answer::Done, 1),
    Step::Call(3, 0, EXIT, [0, 0, 0], Answer::Ends, 1),
];

const SIGNALS: [Step; 16] = [
    Step::Call(1, 0, CREATE, [0x10000, 0, 0], Answer::Value(1), 1),
    Step::Call(2, 0, CREATE, [0x10000, 1, 0], Answer::Value(2), 2),
    Step::Call(2, 1, LOCK, [0, 0, 0], Answer::Done, 3),
    Step::Call(2, 1, WAIT, [5, 0, 0], Answer::Waits, 4),
    Step::Call(3, 0, SYNC, [0, 0, 0], Answer::Done, 50),
    Step::Call(3, 2, LOCK, [0, 0, 0], Answer::Done, 3),
    Step::Call(3, 2, WAIT, [5, 0, 0], Answer::Waits, 2),
    Step::Call(4, 0, SIGNAL, [5, 0, 0], Answer::Value(1), 9),
    Step::Call(5, 0, SIGNAL, [5, 0, 0], Answer::Value(1), 7),
    Step::Wake(5, 1, 0),
    Step::Call(5, 1, UNLOCK, [0, 0, 0], Answer::Done, 11),
    Step::Call(6, 0, SIGNAL, [5, 0, 0], Answer::Value(0), 1),
    Step::Call(6, 1, THREAD_EXIT, [0, 0, 0], Answer::Ends, 2),
    Step::Wake(6, 2, 0),
    Step::Call(6, 2, THREAD_EXIT, [0, 0, 0], Answer::Ends, 5),
    Step::Call(7, 0, EXIT, [0, 0, 0], Answer::Ends, 1),
];

const A_BROADCAST: [Step; 15] = [
    Step::Call(1, 0, CREATE, [0x10000, 0, 0], Answer::Value(1), 1),
    Step::Call(2, 0, CREATE, [0x10000, 1, 0], Answer::Value(2), 2),
    Step::Call(2, 1, LOCK, [0, 0, 0], Answer::Done, 3),
    Step::Call(2, 1, WAIT, [63, 0, 0], Answer::Waits, 4),
    Step::Call(3, 0, SYNC, [0, 0, 0], Answer::Done, 1),
    Step::Call(3, 2, LOCK, [1, 0, 0], Answer::Done, 3),
    Step::Call(3, 2, WAIT, [63, 1, 0], Answer::Waits, 2),
    Step::Call(4, 0, SIGNAL, [62, 0, 0], Answer::Value(0), 9),
    Step::Call(5, 0, BROADCAST, [63, 0, 0], Answer::Value(2), 9),
    Step::Call(6, 0, SYNC, [0, 0, 0], Answer::Done, 8),
    Step::Wake(6, 1, 0),
    Step::Call(6, 1, THREAD_EXIT, [0, 0, 0], Answer::Ends, 2),
    Step::Wake(6, 2, 1),
    Step::Call(6, 2, THREAD_EXIT, [0, 0, 0], Answer::Ends, 5),
    Step::Call(7, 0, EXIT, [0, 0, 0], Answer::Ends, 1),
];

const A_BARRIER: [Step; 9] = [
    Step::Call(1, 0, CREATE, [0x10000, 0, 0], Answer::Value(1), 1),
    Step::Call(2, 0, BARRIER, [2, 2, 0], Answer::Waits, 12),
    Step::Call(
        2,
        1,
        BARRIER,
        [2, 3, 0],
        Answer::Refused(Code::CountDiffers),
        5,
    ),
    Step::Call(3, 1, BARRIER, [2, 2, 0], Answer::Value(1), 40),
    Step::Call(4, 0, SYNC, [0, 0, 0], Answer::Done, 3),
    Step::Call(4, 1, BARRIER, [2, 1, 0], Answer::Value(1), 6),
    Step::Call(5, 0, BARRIER, [2, 2, 0], Answer::Waits, 1),
    Step::Call(5, 1, BARRIER, [2, 2, 0], Answer::Value(1), 1),
    Step::Call(6, 0, EXIT, [0, 0, 0], Answer::Ends, 2),
];

const A_BARRIER_OF_ONE: [Step; 7] = [
    Step::Call(1, 0, CREATE, [0x10000, 0, 0], Answer::Value(1), 1),
    Step::Call(2, 0, SYNC, [0, 0, 0], Answer::Done, 3),
    Step::Call(2, 1, BARRIER, [2, 2, 0], Answer::Waits, 4),
    Step::Call(3, 0, BARRIER, [2, 2, 0], Answer::Value(1), 5),
    Step::Call(4, 0, BARRIER, [2, 1, 0], Answer::Value(1), 6),
    Step::Call(4, 1, THREAD_EXIT, [0, 0, 0], Answer::Ends, 1),
    Step::Call(5, 0, EXIT, [0, 0, 0], Answer::Ends, 2),
];

const QUANTA_AND_A_TRAP: [Step; 6] = [
    Step::Quantum(1, 0, 100),
    Step::Call(2, 0, CREATE, [0x10000, 0, 0], Answer::Value(1), 60),
    Step::Quantum(3, 0, 100),
    Step::Quantum(3, 1, 100),
    Step::Quantum(4, 0, 100),
    Step::Trap(4, 1, 20),
];

const A_DEADLOCK: [Step; 3] = [
    Step::Call(1, 0, CREATE, [0x10000, 0, 0], Answer::Value(1), 2),
    Step::Call(2, 0, JOIN, [1, 0, 0], Answer::Waits, 2),
    Step::Call(2, 1, JOIN, [0, 0, 0], Answer::Waits, 9),
];

const CALLS_THAT_NO_CALL_HAS: [Step; 3] = [
    Step::Call(
        1,
        0,
        255,
        [1, 2, 0xffffffff],
        Answer::Refused(Code::NoSuchCall),
        1,
    ),
    Step::Call(
        2,
        0,
        CREATE,
        [2, 0, 0],
        Answer::Refused(Code::BadArgument),
        1,
    ),
    Step::Call(3, 0, EXIT, [0, 0, 0], Answer::Ends, 0),
];

const NO_INSTRUCTION: [Step; 1] = [Step::Call(1, 0, EXIT, [0, 0, 0], Answer::Ends, 0)];

const LARGE_NUMBERS: [Step; 4] = [
    Step::Quantum(1, 0, 1099511627776),
    Step::Call(
        2,
        0,
        CREATE,
        [0x10000, 0, 0],
        Answer::Value(255),
        1099511627776,
    ),
    Step::Call(3, 0, SYNC, [0, 0, 0], Answer::Done, 3),
    Step::Call(3, 255, EXIT, [0, 0, 0], Answer::Ends, 1099511627776),
];

/// All runs.
pub static ROWS: [Row; 12] = [
    Row {
        name: "a join",
        steps: &A_JOIN,
    },
    Row {
        name: "a turn that waits for the token",
        steps: &A_TURN_THAT_WAITS_FOR_THE_TOKEN,
    },
    Row {
        name: "a keeper",
        steps: &A_KEEPER,
    },
    Row {
        name: "signals",
        steps: &SIGNALS,
    },
    Row {
        name: "a broadcast",
        steps: &A_BROADCAST,
    },
    Row {
        name: "a barrier",
        steps: &A_BARRIER,
    },
    Row {
        name: "a barrier of one",
        steps: &A_BARRIER_OF_ONE,
    },
    Row {
        name: "quanta and a trap",
        steps: &QUANTA_AND_A_TRAP,
    },
    Row {
        name: "a deadlock",
        steps: &A_DEADLOCK,
    },
    Row {
        name: "calls that no call has",
        steps: &CALLS_THAT_NO_CALL_HAS,
    },
    Row {
        name: "no instruction",
        steps: &NO_INSTRUCTION,
    },
    Row {
        name: "large numbers",
        steps: &LARGE_NUMBERS,
    },
];
