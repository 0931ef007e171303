//! What a call changes of threads. A number that no thread has changes nothing.
ghost use Rattle.std.specs.Prelude.{◌≡◌, Some};
ghost use Rattle.thread_table.specs.Threads.{with_status};
ghost use Rattle.call_table.specs.State.{with_thread};
ghost use Rattle.call_table.specs.Effects.{completed, call_finished, wake_up, let_pass};

use abi::Code;
use condvar_barrier::Woken;
use ecalls::finish;
use thread_table::{Status, Thread, ThreadNumbers, Threads};

/// Sets the status of a thread.
#[tactic(auto, unfolding(thread_table::specs::Threads::with_status))]
pub(super) fn set_status(threads: &mut Threads, n: u32, status: Status)
    ensures { threads.new ≡ with_status threads.old n status }
{
    if (n as usize) < threads.len() {
        let thread = *threads.get(n);
        threads.set(n, Thread { status, ..thread });
    }
}

/// Completes the call of a thread, whose status stays.
#[tactic(auto, unfolding(crate::specs::State::with_thread))]
pub(super) fn finish_call(threads: &mut Threads, n: u32, code: Code, value: Option<u32>)
    ensures { threads.new ≡ with_thread threads.old n (call_finished code value) }
{
    if (n as usize) < threads.len() {
        let mut thread = *threads.get(n);
        finish(&mut thread.hart, code, value);
        threads.set(n, thread);
    }
}

/// Completes the call of a thread that waited, which is ready then.
#[tactic(auto, unfolding(crate::specs::State::with_thread))]
pub(super) fn complete(threads: &mut Threads, n: u32, value: Option<u32>)
    ensures { threads.new ≡ with_thread threads.old n (completed value) }
{
    if (n as usize) < threads.len() {
        let mut thread = *threads.get(n);
        finish(&mut thread.hart, Code::Done, value);
        thread.status = Status::Ready;
        threads.set(n, thread);
    }
}

/// Wakes threads.
pub(super) fn wake_up(threads: &mut Threads, woken: &[Woken])
    ensures { threads.new ≡ wake_up woken.now threads.old }
{
    for woken in woken {
        set_status(
            threads,
            u32::from(woken.thread),
            Status::Woken(u32::from(woken.mutex)),
        );
    }
}

/// Completes the calls of threads that waited with a value.
pub(super) fn let_pass(threads: &mut Threads, numbers: &[u32], value: u32)
    ensures { threads.new ≡ let_pass value numbers.now threads.old }
{
    for number in numbers {
        complete(threads, *number, Some(value));
    }
}

/// Completes the calls of threads that waited at a barrier, with the value 0.
pub(super) fn let_arrived_pass(threads: &mut Threads, arrived: &[u8])
    ensures { threads.new ≡ let_pass 0 arrived.now threads.old }
{
    for number in arrived {
        complete(threads, u32::from(*number), Some(0));
    }
}
