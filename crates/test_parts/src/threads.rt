//! Lines on the table of threads: create, join, a thread's end and the lists.
ghost use Rattle.std.specs.Prelude.{◌<◌, length};

use crate::answer::Answer;
use crate::harts::write_hart;
use crate::numbers::numbers_of;
use hart::Hart;
use test_guest_rows::{split, word};
use thread_table::{Status, Threads};

/// Takes a line on threads, if it is one.
pub fn take_thread_line(
    answer: &mut Answer,
    threads: &mut Threads,
    hart: Hart,
    verb: &str,
    rest: &str,
) -> bool {
    match verb {
        "create" => answer.found(threads.create(hart)),
        "create-all" => create_all(answer, threads),
        "become" | "join" | "end" | "thread" => change(answer, threads, verb, rest),
        "lists" => write_lists(answer, threads),
        "runs" => {
            let status = status_of(answer, rest);
            answer.whether(status.is_ready());
            answer.whether(status.has_turn());
        }
        _ => return false,
    }
    true
}

/// The status of a line: its name and its number.
fn status_of(answer: &mut Answer, text: &str) -> Status {
    let (name, number) = split(text);
    let [number, _, _, _, _, _] = numbers_of(number);
    match name {
        "ready" => Status::Ready,
        "woken" => Status::Woken(number),
        "blocked" => Status::Blocked,
        "done" => Status::Done(number),
        _ => {
            answer.word("no status");
            Status::Blocked
        }
    }
}

/// Creates 256 threads, each of which begins at four times its number, with its number in x11. Writes what that answers, and whether
/// another number of threads is there then.
fn create_all(answer: &mut Answer, threads: &mut Threads) {
    for number in 0..256 {
        let created = threads.create(Hart::new(4 * number, 0, 0, number));
        answer.found(created);
        if threads.len() != number as usize + 1 {
            answer.word("miscounted");
        }
    }
}

/// Gives a thread that is there a count of instructions and a status, has it join another one or end, or writes it.
fn change(answer: &mut Answer, threads: &mut Threads, verb: &str, text: &str) {
    let (digits, rest) = split(text);
    let n = word(digits);
    if n as usize >= threads.len() {
        return answer.word("no thread");
    }
    match verb {
        "become" => set(answer, threads, n, rest),
        "join" => write_joined(answer, threads, n, rest),
        "end" => {
            let [value, _, _, _, _, _] = numbers_of(rest);
            answer.numbers(threads.end(n, value).as_slice());
        }
        _ => {
            let thread = *threads.get(n);
            answer.shown(&thread.status);
            answer.push(" ");
            answer.count(thread.executed);
            answer.push(" ");
            write_hart(answer, &thread.hart);
        }
    }
}

/// Gives a thread a count of instructions and a status.
fn set(answer: &mut Answer, threads: &mut Threads, n: u32, text: &str)
    requires { n < length threads.old }
{
    let (executed, status) = split(text);
    let mut thread = *threads.get(n);
    thread.status = status_of(answer, status);
    thread.executed = u64::from(word(executed));
    threads.set(n, thread);
}

/// Has a thread join another one while it holds a mutex or none, and writes the reply and the caller's status.
fn write_joined(answer: &mut Answer, threads: &mut Threads, caller: u32, text: &str)
    requires { caller < length threads.old }
{
    let [n, held, _, _, _, _] = numbers_of(text);
    let reply = threads.join(caller, n, held != 0);
    answer.shown(&reply);
    answer.push(" ");
    if (caller as usize) < threads.len() {
        answer.shown(&threads.get(caller).status);
    }
}

/// Writes how many threads there are, whether there is none, which are ready, and which have a turn.
fn write_lists(answer: &mut Answer, threads: &Threads) {
    answer.count(threads.len() as u64);
    answer.whether(threads.is_empty());
    answer.push(" ready");
    answer.numbers(threads.ready_list().as_slice());
    answer.push(" turn");
    answer.numbers(threads.serial_list().as_slice());
}
