//! A whole run, turn after turn, whose events are told to a recorder of findings.
ghost use Rattle.std.specs.Prelude.{◌≡◌, ◌-◌, ◌^◌, ◌<◌, [], IfOk, OnErr, OnOk, Some};
ghost use Rattle.runtime.specs.Recorded.{ComesTo};
ghost use Rattle.runtime.specs.Turns.{GoesOn};
ghost use Rattle.token.specs.RunInTurn.{point_of};
ghost use Rattle.observed_run.specs.Runs.{AreFindingsOf, MayBegin, ended_in};

use crate::observed_run::ObservedRun;
use crate::observer::Observer;
use races::{Finding, FindingRecorder};
use runtime::{Interruption, RecordedRun, Sink, conclude};
use std::alloc::Global;
use std::sync::Wait;
use token::{Recorder, RunOutcome, Serial, Start};

/// Does all turns of a run by the calling host thread alone, sends the output to a sink, tells a recorder of each turn, and finds
/// the findings. No turn of it is done before, and the recorder has recorded none. The output's bytes are offered once their turn is
/// recorded.
pub fn run_observed<R: Wait, S: Sink, K: Recorder>(
    rt: &R,
    alloc: Global,
    start: Start,
    sink: &mut S,
    recorder: K,
) -> ObservedRun<K>
    requires { MayBegin K.records S.failed start sink.old recorder }
    ensures comes { ComesTo K.records K.writes S.taken S.failed (point_of start).setup result.run sink.old sink.new }
    ensures findings { IfOk result.run.result (λ end. AreFindingsOf (point_of start).setup result.findings.items) }
    ensures none { OnErr result.run.result (result.findings.items ≡ []) }
{
    let mut serial = start.recorded_by(recorder);
    let found = observe_turns(rt, alloc, &mut serial, sink);
    let (ended, findings) = apart(alloc, found);
    with_findings(alloc, conclude(alloc, serial, ended), findings)
}

/// How the turns of a run ended, and its findings: none if they were interrupted.
fn apart(
    alloc: Global,
    found: Result<(RunOutcome, Vec<Finding>), Interruption>,
) -> (Result<RunOutcome, Interruption>, Vec<Finding>)
    ensures ended { result.0 ≡ ended_in found }
    ensures findings { IfOk found (λ found. result.1 ≡ found.1) }
{
    match found {
        Ok((outcome, findings)) => (Ok(outcome), findings),
        Err(interruption) => (Err(interruption), Vec::new(alloc)),
    }
}

/// A run with its findings: none if it has no end.
fn with_findings<K>(
    alloc: Global,
    run: RecordedRun<K, Interruption>,
    findings: Vec<Finding>,
) -> ObservedRun<K>
    ensures run { result.run ≡ run }
    ensures findings { OnOk run.result (result.findings ≡ findings) }
    ensures none { OnErr run.result (result.findings.items ≡ []) }
{
    if run.result.is_ok() {
        return ObservedRun { run, findings };
    }
    ObservedRun {
        run,
        findings: Vec::new(alloc),
    }
}

/// Does all turns of a run and sends its output, and answers how it ended and its findings.
fn observe_turns<R: Wait, S: Sink, K: Recorder>(
    rt: &R,
    alloc: Global,
    serial: &mut Serial<K>,
    sink: &mut S,
) -> Result<(RunOutcome, Vec<Finding>), Interruption>
    requires { S.failed sink.old < 2 ^ 64 - 1 }
    ensures goes { GoesOn K.writes S.taken S.failed (λ found. Some found.0) result serial.old serial.new sink.old sink.new }
    ensures findings { IfOk result (λ found. (point_of serial.old).done ≡ 0 → AreFindingsOf (point_of serial.old).setup found.1.items) }
{
    let mut observer = Observer {
        alloc,
        findings: FindingRecorder::new(alloc)?,
    };
    let outcome = observer.go_to_end(rt, serial, sink)?;
    let findings = observer.findings.findings()?;
    Ok((outcome, findings))
}
