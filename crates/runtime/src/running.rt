//! The calls `run` and `run_into`: a file and its input go in, the report comes out.
ghost use Rattle.std.specs.Prelude.{◌≢◌, ◌-◌, ◌^◌, ◌<◌, IfErr};
ghost use Rattle.runtime.specs.Run.{Answers, setup_from};
ghost use Rattle.runtime.specs.Sending.{CountsFailures, Sends};

use crate::all_taken::AllTaken;
use crate::recorded_run::RecordedRun;
use crate::recording::run_recorded;
use crate::report::Report;
use crate::reporting::report;
use crate::run_fault::RunFault;
use crate::sink::Sink;
use phase_jobs::Gate;
use shuffled_phases::Config;
use std::alloc::Global;
use std::sync::Wait;
use std::thread::Threads;
use token::Kept;

/// Runs a file on an input. The gate's calls are made on the way.
pub fn run<R: Threads + Wait + Sync, G: Gate + Sync>(
    rt: &R,
    alloc: Global,
    elf: &[u8],
    input: &[u8],
    config: &Config,
    gate: &G,
) -> Result<Report, RunFault>
    ensures answers { Answers elf.now input.now config.now result }
    ensures whole { IfErr result (λ fault. fault ≢ RunFault.WriteFailed) }
{
    run_into(rt, alloc, elf, input, config, gate, &mut AllTaken)
}

/// Runs a file on an input, and sends the output to a sink: after each turn it is offered the bytes that the
/// turn wrote, and then what it left of them, until it took all.
pub fn run_into<R: Threads + Wait + Sync, G: Gate + Sync, S: Sink>(
    rt: &R,
    alloc: Global,
    elf: &[u8],
    input: &[u8],
    config: &Config,
    gate: &G,
    sink: &mut S,
) -> Result<Report, RunFault>
    requires { S.failed sink.old < 2 ^ 64 - 1 }
    ensures answers { Answers elf.now input.now config.now result }
    // What the sink took during the call, where it tells it.
    ensures sent { Sends (setup_from elf.now input.now config.now) result (S.taken sink.old) (S.taken sink.new) }
    // WriteFailed is answered only where the sink failed, and a report only where it didn't.
    ensures failures { CountsFailures RunFault.WriteFailed result (S.failed sink.old) (S.failed sink.new) }
{
    let kept = Kept::new(alloc);
    let RecordedRun { result, recorder } = run_recorded(
        rt, alloc, elf, input, config, gate, sink, kept,
    );
    match result {
        Ok(end) => Ok(report(alloc, end, recorder)?),
        Err(fault) => Err(fault),
    }
}
