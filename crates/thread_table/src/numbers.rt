//! The numbers of the threads that a test picks, ascending, in a fixed array.
ghost use Rattle.std.specs.Prelude.{◌≡◌, ◌≤◌, Bool, length};
ghost use Rattle.std.specs.Fn.{FnReturnsAt};
ghost use Rattle.abi.specs.Limits as limit;
ghost use Rattle.thread_table.specs.declared.thread.Thread.{Thread as Row};
ghost use Rattle.thread_table.specs.Threads as spec;

use crate::thread::Thread;
use abi::limits::THREADS;
use arrayvec::ArrayVec;

/// How many threads a table has room for.
pub const CAPACITY: usize = THREADS as usize;

/// Numbers of threads, ascending. It takes no memory.
pub type ThreadNumbers = ArrayVec<u32, CAPACITY>;

/// Fills a list with the numbers of the threads of which a test holds, in place of what it had.
pub(crate) fn fill_where<F: Fn(&Thread) -> bool>(
    threads: &[Thread],
    test: F,
    numbers: &mut ThreadNumbers,
)
    ghost holds: { Row → Bool }
    requires room { length threads.now ≤ limit.threads }
    requires callable { F.IsAlwaysCallable test }
    requires tells { (thread : Row) (answer : Bool) → FnReturnsAt F.Fn test thread answer → answer ≡ holds thread }
    ensures list { numbers.new.items ≡ spec.numbers_where holds threads.now }
    ensures numbers { spec.AreNumbersOf threads.now numbers.new.items }
{
    numbers.clear();
    for (number, thread) in threads.iter().enumerate() {
        if test(thread) {
            numbers.push(number as u32);
        }
    }
}
