//! Calls on words, names, harts, threads and objects, each by itself.
use crate::answer::{Answer, mixed};
use abi::{Call, CallKind, Code, Reply};
use condvar_barrier::Objects;
use decoder::{decode, encode};
use ecalls::{call_of, finish};
use guest_memory::layout::{IMAGE_START, STACK_POINTER};
use hart::Hart;
use thread_table::Threads;

/// A word of each format (R, I, S, B, U, J, a fence), and one that is no instruction.
const WORDS: [u32; 8] = [
    0x0062_83b3,
    0xfff2_8393,
    0x0062_a223,
    0xfe62_8ee3,
    0x1234_53b7,
    0xff5f_f0ef,
    0x0c30_000f,
    0,
];

/// Words decoded and encoded again.
pub fn words() -> Answer {
    let mut count: u64 = 0;
    let mut digest = 0;
    for word in WORDS {
        if let Some(instr) = decode(word) {
            count = count.wrapping_add(1);
            digest = mixed(digest, u64::from(encode(&instr)));
        }
    }
    Answer {
        count,
        value: WORDS[0],
        digest,
    }
}

/// Numbers and names of the calls.
pub fn names() -> Answer {
    let mut count: u64 = 0;
    let mut digest = 0;
    for number in 0..20 {
        if let Some(kind) = CallKind::from_number(number) {
            count = count.wrapping_add(1);
            digest = mixed(digest, kind.name().len() as u64);
            digest = mixed(digest, u64::from(kind.number()));
        }
    }
    Answer {
        count,
        value: Code::BadArgument.number(),
        digest,
    }
}

/// A hart set to a call, which is read and completed.
pub fn harts() -> Answer {
    let mut hart = Hart::new(IMAGE_START, STACK_POINTER, 5, 1);
    hart.set_reg(17, 3);
    hart.set_reg(12, 7);
    let third = match call_of(&hart) {
        Call::Create { stack_pointer, .. } => stack_pointer,
        _ => 0,
    };
    finish(&mut hart, Code::Done, Some(9));
    hart.set_reg(0, 1);
    Answer {
        count: u64::from(third),
        value: hart.pc(),
        digest: mixed(u64::from(hart.reg(11)), u64::from(hart.reg(0))),
    }
}

/// A table with a second thread, which the first one joins before and after its end.
pub fn threads() -> Answer {
    let mut threads = Threads::new();
    answer_of_threads(&mut threads)
}

/// What the calls of a table without a thread answer.
fn answer_of_threads(threads: &mut Threads) -> Answer {
    let hart = Hart::new(IMAGE_START, STACK_POINTER, 0, 0);
    let first = threads.create(hart).is_some();
    let second = threads.create(hart).is_some();
    let mut waits = false;
    let mut joiners = 0;
    if threads.len() > 1 {
        waits = threads.join(0, 1, false) == Reply::Waits;
        joiners = threads.end(1, 6).len();
    }
    let digest = mixed(joiners as u64, threads.ready_list().len() as u64);
    Answer {
        count: u64::from(first) + u64::from(second),
        value: u32::from(waits),
        digest: mixed(digest, threads.serial_list().len() as u64),
    }
}

/// A mutex, a condition variable and a barrier of two threads.
pub fn objects() -> Answer {
    let mut objects = Objects::new();
    let digest = digest_of_replies(&mut objects);
    answer_of_objects(&mut objects, digest)
}

/// A digest of whether the calls of a mutex wait that two threads lock, and that one of them unlocks.
fn digest_of_replies(objects: &mut Objects) -> u64 {
    let first = objects.lock(0, 3) == Reply::Waits;
    let second = objects.unlock(0, 3) == Reply::Waits;
    let third = objects.lock(1, 3) == Reply::Waits;
    let digest = mixed(mixed(0, u64::from(first)), u64::from(second));
    mixed(digest, u64::from(third))
}

/// What the calls of a mutex that a thread holds, of a condition variable and of a barrier answer.
fn answer_of_objects(objects: &mut Objects, digest: u64) -> Answer {
    objects.release_all(1);
    objects.take_back(0, 3);
    let held = objects.holds(0);
    let woken = objects.signal(2).let_go.is_some();
    let let_go = objects.broadcast(2).let_go.len() as u64;
    Answer {
        count: let_go,
        value: u32::from(held),
        digest: mixed(digest, u64::from(woken)),
    }
}
