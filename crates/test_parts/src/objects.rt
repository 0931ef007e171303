//! Lines on mutexes, condition variables and barriers: calls, each by its thread, and what they answer.

use crate::answer::Answer;
use crate::numbers::numbers_of;
use abi::Reply;
use condvar_barrier::{Objects, Woken};

/// Takes a line on objects, if it is one.
pub fn take_object_line(
    answer: &mut Answer,
    objects: &mut Objects,
    verb: &str,
    rest: &str,
) -> bool {
    let numbers = numbers_of(rest);
    match verb {
        "lock" | "unlock" | "wait" | "barrier" => call(answer, objects, verb, numbers),
        "signal" | "broadcast" => wake(answer, objects, verb, numbers),
        "release" | "take-back" | "holds" | "waits" => see(answer, objects, verb, numbers),
        _ => return false,
    }
    true
}

/// Carries out a call of a thread, and writes the reply, and who passes a barrier.
fn call(
    answer: &mut Answer,
    objects: &mut Objects,
    verb: &str,
    [thread, first, second, _, _, _]: [u32; 6],
) {
    let is_blocked = objects.is_waiting(thread);
    if thread >= 256 || is_blocked {
        return answer.word("no thread that runs");
    }
    match verb {
        "lock" => write_reply(answer, objects.lock(thread, first)),
        "unlock" => write_reply(answer, objects.unlock(thread, first)),
        "wait" => write_reply(answer, objects.wait(thread, first, second)),
        _ => {
            let passed = objects.barrier(thread, first, second);
            write_reply(answer, passed.reply);
            for thread in passed.let_go.as_slice() {
                answer.push(", ");
                answer.digits(u32::from(*thread));
                answer.push(" passes");
            }
        }
    }
}

/// Signals a condition variable to one or to all, and writes the reply and who is woken.
fn wake(
    answer: &mut Answer,
    objects: &mut Objects,
    verb: &str,
    [condition, _, _, _, _, _]: [u32; 6],
) {
    if verb == "broadcast" {
        let signalled = objects.broadcast(condition);
        write_reply(answer, signalled.reply);
        return write_woken(answer, signalled.let_go.as_slice());
    }
    let signalled = objects.signal(condition);
    write_reply(answer, signalled.reply);
    if let Some(woken) = signalled.let_go {
        write_woken(answer, &[woken]);
    }
}

/// Writes who is woken, with its mutex.
fn write_woken(answer: &mut Answer, threads: &[Woken]) {
    for woken in threads {
        answer.push(", ");
        answer.digits(u32::from(woken.thread));
        answer.push(" takes ");
        answer.digits(u32::from(woken.mutex));
    }
}

/// Writes a reply: its code and its value, that the caller waits, or that it ends.
fn write_reply(answer: &mut Answer, reply: Reply) {
    match reply {
        Reply::Completed { code, value } => {
            answer.number(code.number());
            if let Some(value) = value {
                answer.number(value);
            }
        }
        Reply::Waits => answer.word("wait"),
        Reply::Ends => answer.word("end"),
    }
}

/// Frees the mutexes of a thread, gives it one back, or writes whether it holds any or waits.
fn see(
    answer: &mut Answer,
    objects: &mut Objects,
    verb: &str,
    [thread, mutex, _, _, _, _]: [u32; 6],
) {
    if thread >= 256 {
        return answer.word("no thread");
    }
    match verb {
        "release" => objects.release_all(thread),
        "take-back" => objects.take_back(thread, mutex),
        "holds" => answer.whether(objects.holds(thread)),
        _ => answer.whether(objects.is_waiting(thread)),
    }
}
