//! Turns in a short form.

use abi::{Code, Reply};
use hart::{Cause, Trap};
use token::{Turn, TurnStop};

pub const EXIT: u32 = 1;

pub const THREAD_EXIT: u32 = 2;

pub const CREATE: u32 = 3;

pub const JOIN: u32 = 4;

pub const LOCK: u32 = 5;

pub const UNLOCK: u32 = 6;

pub const WAIT: u32 = 7;

pub const SIGNAL: u32 = 8;

pub const BROADCAST: u32 = 9;

pub const BARRIER: u32 = 10;

pub const SYNC: u32 = 14;

/// A turn in a short form.
#[derive(Clone, Copy)]
pub enum Step {
    /// The phase, the thread, a call with its arguments, what it comes to, and how many instructions ran.
    Call(u64, u32, u32, [u32; 3], Answer, u64),
    /// The phase, the thread, and the mutex that it takes.
    Wake(u64, u32, u32),
    /// The phase, the thread, and how many instructions ran up to the end of the quantum.
    Quantum(u64, u32, u64),
    /// The phase, the thread, and how many instructions ran before an EBREAK.
    Trap(u64, u32, u64),
}

/// What a call comes to.
#[derive(Clone, Copy)]
pub enum Answer {
    /// It is done.
    Done,
    /// It is done, with a value.
    Value(u32),
    /// It is refused.
    Refused(Code),
    /// Its thread waits.
    Waits,
    /// Its thread or the run has ended.
    Ends,
}

impl Step {
    /// The turn.
    pub fn turn(self) -> Turn {
        match self {
            Step::Call(phase, thread, number, arguments, answer, ran) => {
                let stop = TurnStop::Call {
                    number,
                    arguments,
                    reply: answer.reply(),
                };
                turn_of(phase, thread, stop, ran)
            }
            Step::Wake(phase, thread, mutex) => turn_of(phase, thread, TurnStop::Wake { mutex }, 0),
            Step::Quantum(phase, thread, ran) => {
                turn_of(phase, thread, TurnStop::Quantum { pc: 0x0001_0018 }, ran)
            }
            Step::Trap(phase, thread, ran) => {
                let trap = Trap {
                    cause: Cause::Breakpoint,
                    value: 0,
                };
                turn_of(
                    phase,
                    thread,
                    TurnStop::Trap {
                        pc: 0x0001_0060,
                        trap,
                    },
                    ran,
                )
            }
        }
    }
}

impl Answer {
    /// The reply.
    fn reply(self) -> Reply {
        match self {
            Answer::Done => completed(Code::Done, None),
            Answer::Value(value) => completed(Code::Done, Some(value)),
            Answer::Refused(code) => completed(code, None),
            Answer::Waits => Reply::Waits,
            Answer::Ends => Reply::Ends,
        }
    }
}

fn completed(code: Code, value: Option<u32>) -> Reply {
    Reply::Completed { code, value }
}

/// A turn that stopped so, and changed nothing.
fn turn_of(phase: u64, thread: u32, stop: TurnStop, ran: u64) -> Turn {
    Turn {
        phase,
        thread,
        base: 0,
        stop,
        changed: 0,
        ran,
    }
}
