//! Runs of two guest programs, and what sinks are offered.

use crate::fixtures::{CONFIG, assert_same, ending_into, ends, report_into};
use data_guest_programs::{QUOTIENTS, SEVEN};
use runtime::{OpenGate, Report, RunFault, RunOutcome, Sink, SinkFault, WriteSink, run};
use std::process::Abort;
use std::test::Fail;

/// What `quotients` writes.
static OUTPUT: [u8; 8] = [0x00, 0x00, 0x00, 0x80, 0x00, 0x00, 0x00, 0x80];

/// A sink that takes at most three bytes at a time. It keeps how many it was offered at its first puts.
#[derive(Drop)]
struct ThreeAtATime {
    offered: [usize; 4],
    puts: usize,
}

impl Sink for ThreeAtATime {
    ghost failed = { λ _. 0 };

    fn put(&mut self, bytes: &[u8]) -> Result<usize, SinkFault> {
        if let Some(offered) = self.offered.get_mut(self.puts) {
            *offered = bytes.len();
        }
        self.puts = self.puts.saturating_add(1);
        Ok(bytes.len().min(3))
    }

    fn failures(&self) -> u64 {
        0
    }
}

/// A sink that takes one byte, and then fails.
#[derive(Drop)]
struct OneByte {
    byte: Option<u8>,
    failures: u64,
}

impl Sink for OneByte {
    ghost failed = { λ sink. sink.failures };

    fn put(&mut self, bytes: &[u8]) -> Result<usize, SinkFault> {
        match (self.byte, bytes) {
            (None, [first, ..]) => {
                self.byte = Some(*first);
                Ok(1)
            }
            _ => {
                self.failures += 1;
                Err(SinkFault)
            }
        }
    }

    fn failures(&self) -> u64 {
        self.failures
    }
}

/// Asserts the outcome of a run of `seven`, how many bytes it wrote, how many turns it had, and the first byte of its code.
fn assert_seven(rt: &impl Abort, report: &Report) {
    let byte = report.memory.byte(0x0001_0000);
    let seen = (report.output.len(), report.trace.len(), byte);
    assert_same(rt, &report.outcome, &RunOutcome::Exit(7));
    assert_same(rt, &seen, &(0, 1, Some(0x93)));
}

#[test]
fn exits(rt: HostRuntime) -> Result<(), Fail> {
    let file = SEVEN.file(rt.alloc())?;
    let report = run(&rt, rt.alloc(), &file, &[], &CONFIG, &OpenGate)?;
    assert_seven(&rt, &report);
    Ok(())
}

/// Asserts the outcome of a run of `quotients`, and that the report and the sink have its output.
fn assert_quotients(rt: &impl Abort, report: &Report, sink: &WriteSink<Vec<u8>>) {
    let ended = (report.outcome, sink.failures());
    assert_same(rt, &ended, &(RunOutcome::Exit(0), 0));
    assert_same(rt, &report.output.as_slice(), &OUTPUT.as_slice());
    assert_same(rt, &sink.writer.as_slice(), &OUTPUT.as_slice());
}

#[test]
fn writes_to_a_vec(rt: HostRuntime) -> Result<(), Fail> {
    let mut sink = WriteSink::new(Vec::new(rt.alloc()));
    let report = report_into(&rt, rt.alloc(), &QUOTIENTS, 1, &OpenGate, &mut sink)?;
    assert_quotients(&rt, &report, &sink);
    Ok(())
}

#[test]
fn offers_what_is_left(rt: HostRuntime) {
    let mut sink = ThreeAtATime {
        offered: [0; 4],
        puts: 0,
    };
    let ending = ending_into(&rt, rt.alloc(), &QUOTIENTS, 1, &mut sink);
    let wanted = (ends(RunOutcome::Exit(0)), [8, 5, 2, 0], 3);
    assert_same(&rt, &(ending, sink.offered, sink.puts), &wanted);
}

#[test]
fn stops_where_the_sink_fails(rt: HostRuntime) {
    let mut sink = OneByte {
        byte: None,
        failures: 0,
    };
    let ending = ending_into(&rt, rt.alloc(), &QUOTIENTS, 1, &mut sink);
    let wanted = (Err(RunFault::WriteFailed), Some(0), 1);
    assert_same(&rt, &(ending, sink.byte, sink.failures), &wanted);
    assert_same(&rt, &RunFault::WriteFailed.number(), &5);
}
