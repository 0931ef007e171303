//! Lines on the hart and its calls.

use crate::answer::Answer;
use crate::numbers::numbers_of;
use abi::Code;
use ecalls::{call_of, finish};
use hart::{Cause, Hart};
use test_guest_rows::{small, split, word};

/// The causes of traps, in the order of their numbers.
static CAUSES: [Cause; 9] = [
    Cause::TargetMisaligned,
    Cause::FetchDenied,
    Cause::IllegalInstruction,
    Cause::Breakpoint,
    Cause::LoadMisaligned,
    Cause::LoadDenied,
    Cause::StoreMisaligned,
    Cause::StoreDenied,
    Cause::BoundReached,
];

/// The codes of calls, in the order of their numbers.
static CODES: [Code; 10] = [
    Code::Done,
    Code::NoSuchCall,
    Code::BadArgument,
    Code::BadAddress,
    Code::Limit,
    Code::NotHolder,
    Code::HoldsLock,
    Code::NoSuchThread,
    Code::AlreadyHeld,
    Code::CountDiffers,
];

/// Takes a line on the hart, if it is one.
pub fn take_hart_line(answer: &mut Answer, hart: &mut Hart, verb: &str, rest: &str) -> bool {
    match verb {
        "hart" => begin(answer, hart, numbers_of(rest)),
        "set" => set(answer, hart, numbers_of(rest)),
        "pc" => set_pc(answer, hart, word(rest)),
        "registers" => write_hart(answer, hart),
        "call" => answer.shown(&call_of(hart)),
        "finish" => write_finished(answer, *hart, rest),
        "causes" => write_causes(answer),
        _ => return false,
    }
    true
}

/// Has the hart begin at this pc.
fn begin(answer: &mut Answer, hart: &mut Hart, [pc, sp, argument, number, _, _]: [u32; 6]) {
    if pc % 4 != 0 {
        return answer.word("no pc");
    }
    *hart = Hart::new(pc, sp, argument, number);
}

/// Sets a register.
fn set(answer: &mut Answer, hart: &mut Hart, [register, value, _, _, _, _]: [u32; 6]) {
    if register >= 32 {
        return answer.word("no register");
    }
    hart.set_reg(register as usize, value);
}

/// Sets pc.
fn set_pc(answer: &mut Answer, hart: &mut Hart, pc: u32) {
    if pc % 4 != 0 {
        return answer.word("no pc");
    }
    hart.set_pc(pc);
}

/// Writes pc and each register that isn't 0.
pub fn write_hart(answer: &mut Answer, hart: &Hart) {
    answer.push("pc=");
    answer.digits(hart.pc());
    for register in 0..32 {
        let value = hart.reg(register);
        if value != 0 {
            answer.push(" x");
            answer.count(register as u64);
            answer.push("=");
            answer.digits(value);
        }
    }
}

/// Writes a code, and the hart after a call that is finished with it and, if there is one, a value.
fn write_finished(answer: &mut Answer, mut hart: Hart, text: &str) {
    let (place, value) = split(text);
    let value = match value {
        "" => None,
        digits => Some(word(digits)),
    };
    let Some(code) = CODES.get(small(place) as usize) else {
        return answer.word("no code");
    };
    finish(&mut hart, *code, value);
    answer.shown(code);
    answer.push(" ");
    write_hart(answer, &hart);
}

/// Writes the name and the number of each cause.
fn write_causes(answer: &mut Answer) {
    for cause in &CAUSES {
        answer.shown(cause);
        answer.push(" ");
        answer.count(u64::from(cause.number()));
        answer.push(",");
    }
}
