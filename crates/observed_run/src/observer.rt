//! Does the turns of a run and tells a recorder of findings their events.
ghost use Rattle.std.specs.Prelude.{◌≡◌, ◌≢◌, ◌-◌, ◌^◌, ◌<◌, IfErr, IfOk, IsSome, None, OnErr, OnOk, Some, option_map};
ghost use Rattle.token.specs.Point.{IsNeededAt, IsNeededBy, moved, step_at};
ghost use Rattle.token.specs.RunInTurn.{point_of};
ghost use Rattle.token.specs.Serial.{IsLonger};
ghost use Rattle.token.specs.declared.outcome.RunOutcome.{RunOutcome};
ghost use Rattle.token.specs.declared.turn_fault.TurnFault.TheVariants.{WriteFailed};
ghost use Rattle.runtime.specs.Turns.{GoesOn, Moves};
ghost use Rattle.observed_run.specs.Runs as spec;
ghost use Rattle.observed_run.specs.Runs.{LeadsLegally, MayMove, TellsLast, actor_of, needed_events, thread_by};
ghost use Rattle.observed_run.specs.Told.{IsTold};

use crate::actor::{Actor, byte_of};
use crate::before::Before;
use crate::call_events::{EndedTurn, end_events, let_go};
use crate::observing::{observe, steps_before};
use crate::telling::tell_all;
use races::FindingRecorder;
use runtime::{Interruption, Sink, send};
use std::alloc::{AllocError, Global};
use std::sync::Wait;
use token::{Need, Recorder, RunOutcome, SegmentEnd, Serial, TurnFault};

/// Does turns by the calling host thread alone, and tells a recorder of findings their events.
#[derive(Drop)]
pub(crate) struct Observer {
    pub(crate) alloc: Global,
    /// Who is told the events.
    pub(crate) findings: FindingRecorder,
}

impl Observer {
    /// Does all turns, sends the output of each to a sink before the next one, and answers how the run ended.
    pub(crate) fn go_to_end<R: Wait, K: Recorder, S: Sink>(
        &mut self,
        rt: &R,
        serial: &mut Serial<K>,
        sink: &mut S,
    ) -> Result<RunOutcome, Interruption>
        requires { S.failed sink.old < 2 ^ 64 - 1 }
        ensures goes { GoesOn K.writes S.taken S.failed Some result serial.old serial.new sink.old sink.new }
        ensures leads { OnOk result (LeadsLegally serial.old serial.new self.old.findings self.new.findings) }
        ensures ended { OnOk result (IsSome (point_of serial.new).ended) }
    {
        for _ in rt.forever() {
            if let Some(outcome) = self.send_turn(serial, sink)? {
                return Ok(outcome);
            }
        }
        unreachable!()
    }

    /// Does the next turn and sends what it wrote, or answers how the run ended.
    fn send_turn<K: Recorder, S: Sink>(
        &mut self,
        serial: &mut Serial<K>,
        sink: &mut S,
    ) -> Result<Option<RunOutcome>, Interruption>
        requires { S.failed sink.old < 2 ^ 64 - 1 }
        ensures goes { GoesOn K.writes S.taken S.failed (λ ends. ends) result serial.old serial.new sink.old sink.new }
        ensures leads { OnOk result (LeadsLegally serial.old serial.new self.old.findings self.new.findings) }
    {
        if let Some(outcome) = self.take_turn(serial)? {
            return Ok(Some(outcome));
        }
        match send(serial.fresh(), sink) {
            Ok(()) => Ok(None),
            Err(_) => Err(Interruption::WriteFailed),
        }
    }

    /// Does the next turn, or answers how the run ended.
    fn take_turn<K: Recorder>(
        &mut self,
        serial: &mut Serial<K>,
    ) -> Result<Option<RunOutcome>, TurnFault>
        ensures leads { OnOk result (LeadsLegally serial.old serial.new self.old.findings self.new.findings) }
        ensures moved { IfOk result (λ ends. Moves ends (point_of serial.old) (point_of serial.new)) }
        ensures may { OnErr result (MayMove (point_of serial.old) (point_of serial.new)) }
        ensures failed { IfErr result (λ fault. fault ≡ WriteFailed → K.writes × ((point_of serial.new).ended ≡ None)) }
    {
        let need = serial.need();
        if let Need::Ended(outcome) = need {
            return Ok(Some(outcome));
        }
        let end = self.execute(serial, &need)?;
        self.turn(serial, thread_by(&need), end.as_ref())?;
        Ok(None)
    }

    /// Executes the segment that a turn needs, and tells its events. A wake needs none.
    fn execute<K: Recorder>(
        &mut self,
        serial: &Serial<K>,
        need: &Need,
    ) -> Result<Option<SegmentEnd>, AllocError>
        requires { (outcome : RunOutcome) → need.now ≢ Need.Ended outcome }
        ensures needed { IfOk result (IsNeededBy (point_of serial.now) need.now) }
        ensures told { IfOk result (λ end.
            IsTold self.old.findings self.new.findings
            (needed_events (actor_of (point_of serial.now).done (thread_by need.now)) (point_of serial.now) need.now end)) }
    {
        let (work, memory) = match *need {
            Need::Segment(work) => (work, serial.base()),
            Need::Keeper(work) => (work, serial.now()),
            Need::Wake { .. } | Need::Ended(_) => return Ok(None),
        };
        let actor = actor_in(serial, work.thread);
        let end = observe(&mut self.findings, actor, work.segment, memory)?;
        Ok(Some(end))
    }

    /// Does the next turn, which is a thread's, and tells what its call or its wake orders.
    fn turn<K: Recorder>(
        &mut self,
        serial: &mut Serial<K>,
        thread: u32,
        end: Option<&SegmentEnd>,
    ) -> Result<(), TurnFault>
        requires { IsNeededAt (point_of serial.old) (option_map (λ end. end.now) end) }
        ensures moved { OnOk result
            (point_of serial.new ≡ moved (point_of serial.old) (step_at (point_of serial.old) (option_map (λ end. end.now) end.entry))) }
        ensures longer { OnOk result (IsLonger (point_of serial.old) (point_of serial.new)) }
        ensures may { OnErr result (MayMove (point_of serial.old) (point_of serial.new)) }
        ensures failed { IfErr result (λ fault. fault ≡ WriteFailed → K.writes × (point_of serial.new ≡ point_of serial.old)) }
        ensures told { OnOk result
            (TellsLast serial.old self.old.findings self.new.findings thread (option_map (λ end. end.now) end.entry)) }
    {
        let alloc = self.alloc;
        let actor = actor_in(serial, thread);
        let before = Before::of(alloc, serial, thread)?;
        let turn = serial.turn(end)?;
        let passed = let_go(alloc, &before, serial.threads())?;
        let ended = EndedTurn {
            actor: actor.after(executed_in(end)),
            held: before.held.as_slice(),
            passed: passed.as_slice(),
        };
        let events = end_events(alloc, &ended, end, turn.stop)?;
        Ok(tell_all(&mut self.findings, &events)?)
    }
}

/// Who has the turn that needs this, if it is one.
fn thread_by(need: &Need) -> u32
    ensures { result ≡ spec.thread_by need.now }
{
    match *need {
        Need::Segment(work) | Need::Keeper(work) => work.thread,
        Need::Wake { thread } => thread,
        Need::Ended(_) => 0,
    }
}

/// How many instructions a turn executed before its stop: those of its segment, if it has one.
fn executed_in(end: Option<&SegmentEnd>) -> u64
    ensures { result ≡ spec.executed_in (option_map (λ end. end.now) end.entry) }
{
    match end {
        Some(end) => steps_before(end.stop, end.count),
        None => 0,
    }
}

/// A thread in the next turn of a run.
fn actor_in<K: Recorder>(serial: &Serial<K>, thread: u32) -> Actor
    ensures { result ≡ spec.actor_of (point_of serial.now).done thread }
{
    Actor {
        thread: byte_of(thread),
        turn: serial.done().wrapping_add(1),
        instruction: 0,
    }
}
