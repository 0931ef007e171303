//! The output of runs as sinks take it: when, in which pieces, and what is answered where one fails.

ghost use Rattle.std.specs.Prelude.{◌≡◌};

use crate::fixtures::{Ending, assert_same, ending_into, ends, report_into};
use data_guest_programs::{QUOTIENTS, TWO_WRITES};
use runtime::{Gate, RunFault, RunOutcome, Sink, SinkFault};
use std::alloc::Global;
use std::process::Abort;
use std::sync::Wait;
use std::sync::atomic::{AtomicU64, Ordering};
use std::test::Fail;
use std::thread::Threads;

/// What `quotients` writes.
const OUTPUT: [u8; 8] = [0, 0, 0, 0x80, 0, 0, 0, 0x80];

/// How many bytes the sink takes at a time, and of how many puts the output of `two-writes` then is.
static PIECES: [(usize, u64); 5] = [(1, 12), (3, 5), (5, 3), (8, 2), (100, 2)];

/// The put that fails, and how many bytes were taken before it. With three bytes at a time the puts are of 3, 3, 2, 3 and 1
/// bytes.
static FAILED: [(u64, usize); 5] = [(0, 0), (1, 3), (2, 6), (3, 8), (4, 11)];

/// A sink that takes a few bytes at a time, and fails at one of its puts and all after it.
#[derive(Drop)]
struct Pieces {
    /// How many bytes it takes at most.
    most: usize,
    /// At which put it fails, counted from 0.
    fails_at: u64,
    puts: u64,
    failures: u64,
    taken: usize,
}

impl Pieces {
    fn new(most: usize, fails_at: u64) -> Self
        ensures { result.failures ≡ 0 }
    {
        Pieces {
            most,
            fails_at,
            puts: 0,
            failures: 0,
            taken: 0,
        }
    }
}

impl Sink for Pieces {
    ghost failed = { λ sink. sink.failures };

    fn put(&mut self, bytes: &[u8]) -> Result<usize, SinkFault> {
        if self.fails_at <= self.puts {
            self.failures += 1;
            return Err(SinkFault);
        }
        self.puts += 1;
        let taken = bytes.len().min(self.most.max(1));
        self.taken = self.taken.saturating_add(taken);
        Ok(taken)
    }

    fn failures(&self) -> u64 {
        self.failures
    }
}

/// A sink that takes all, and counts the bytes where a gate sees the count.
#[derive(Drop)]
struct Counting<'a> {
    taken: &'a AtomicU64,
}

impl Sink for Counting<'_> {
    ghost failed = { λ _. 0 };

    fn put(&mut self, bytes: &[u8]) -> Result<usize, SinkFault> {
        self.taken.fetch_add(bytes.len() as u64, Ordering::SeqCst);
        Ok(bytes.len())
    }

    fn failures(&self) -> u64 {
        0
    }
}

/// A gate that keeps what a sink had taken at its first and at its second pass.
#[derive(Drop)]
struct Watching<'a> {
    taken: &'a AtomicU64,
    passes: AtomicU64,
    at_first: AtomicU64,
    at_second: AtomicU64,
}

impl Gate for Watching<'_> {
    fn pass(&self, _worker: u32, _job: u32) {
        let taken = self.taken.load(Ordering::SeqCst);
        match self.passes.fetch_add(1, Ordering::SeqCst) {
            0 => self.at_first.store(taken, Ordering::SeqCst),
            1 => self.at_second.store(taken, Ordering::SeqCst),
            _ => {}
        }
    }
}

impl<'a> Watching<'a> {
    fn of(taken: &'a AtomicU64) -> Self {
        Watching {
            taken,
            passes: AtomicU64::new(0),
            at_first: AtomicU64::new(1),
            at_second: AtomicU64::new(0),
        }
    }

    /// What had been taken at the first and at the second pass, and how many passes there were.
    fn seen(&self) -> [u64; 3] {
        [
            self.at_first.load(Ordering::SeqCst),
            self.at_second.load(Ordering::SeqCst),
            self.passes.load(Ordering::SeqCst),
        ]
    }
}

/// Asserts what `quotients` writes, and when a sink takes it.
fn assert_watched(
    rt: &(impl Abort + Threads + Wait + Sync),
    alloc: Global,
    gate: &Watching<'_>,
) -> Result<(), RunFault> {
    let mut sink = Counting { taken: gate.taken };
    let report = report_into(rt, alloc, &QUOTIENTS, 1, gate, &mut sink)?;
    assert_same(rt, &report.output.as_slice(), &OUTPUT.as_slice());
    assert_same(rt, &gate.seen(), &[0, 8, 2]);
    Ok(())
}

#[test]
fn output_is_sent_at_its_turn(rt: HostRuntime) -> Result<(), Fail> {
    let taken = AtomicU64::new(0);
    let gate = Watching::of(&taken);
    Ok(assert_watched(&rt, rt.alloc(), &gate)?)
}

/// A number of workers, how many bytes the sink takes at a time, and the put at which it fails.
type Case = (u32, usize, u64);

/// Asserts how the run of `two-writes` ends, how many puts and bytes its sink took, and how often it failed.
fn assert_sent(
    rt: &(impl Abort + Threads + Wait + Sync),
    alloc: Global,
    case: Case,
    wanted: (Ending, u64, usize, u64),
) {
    let (workers, most, fails_at) = case;
    let mut sink = Pieces::new(most, fails_at);
    let ending = ending_into(rt, alloc, &TWO_WRITES, workers, &mut sink);
    let sent = (ending, sink.puts, sink.taken, sink.failures);
    assert_same(rt, &(case, sent), &(case, wanted));
}

/// Asserts that a sink takes all in pieces.
fn assert_pieces(rt: &(impl Abort + Threads + Wait + Sync), alloc: Global, workers: u32) {
    for (most, puts) in &PIECES {
        let wanted = (ends(RunOutcome::Exit(3)), *puts, 12, 0);
        assert_sent(rt, alloc, (workers, *most, u64::MAX), wanted);
    }
}

#[test]
fn sinks_take_all_in_pieces(rt: HostRuntime) {
    for workers in [1, 2, 64] {
        assert_pieces(&rt, rt.alloc(), workers);
    }
}

#[test]
fn a_failed_put_is_a_failed_write(rt: HostRuntime) {
    for (fails_at, taken) in &FAILED {
        let wanted = (Err(RunFault::WriteFailed), *fails_at, *taken, 1);
        assert_sent(&rt, rt.alloc(), (1, 3, *fails_at), wanted);
    }
}
