//! What is told of a position: its turn and thread, what the run is about to do there, and how it ends.
ghost use Rattle.std.specs.Prelude.{◌≡◌, length};
ghost use Rattle.timeline.specs.Last.{IsLast};
ghost use Rattle.timeline.specs.Present.{IsSound, moment_of, point_at};
ghost use Rattle.timeline.specs.Told.{IsTrapThere, end_in, outcome_at, stage_at, thread_at, trap_found, turn_at};

use crate::present::Present;
use crate::stage::Stage;
use token::{Need, RunOutcome};

impl Present {
    /// The present turn, from 1: one more than the turns that were done. At the end of the run it is the last one.
    pub(crate) fn turn_number(&self) -> u64
        requires { IsSound self.now }
        ensures { result ≡ turn_at (point_at self.now) }
    {
        let done = self.serial.done();
        match self.stage() {
            Stage::End(_) => done,
            Stage::Segment | Stage::Wake | Stage::Trap { .. } => done.saturating_add(1),
        }
    }

    /// The thread whose turn it is, at the end that of the last turn.
    pub(crate) fn thread(&self) -> u32
        requires { IsSound self.now }
        ensures thread { result ≡ thread_at (point_at self.now) self.now.last }
        ensures last { IsLast (point_at self.now) self.now.last }
    {
        if let Some(underway) = &self.underway {
            return underway.work.thread;
        }
        match self.serial.need() {
            Need::Segment(work) | Need::Keeper(work) => work.thread,
            Need::Wake { thread } => thread,
            Need::Ended(_) => self.last,
        }
    }

    /// What the run is about to do. That an instruction traps is known once its step was tried.
    pub(crate) fn stage(&self) -> Stage
        requires { IsSound self.now }
        ensures stage { result ≡ stage_at (moment_of self.now) (trap_found self.now.underway) }
        ensures trap { IsTrapThere (moment_of self.now) (trap_found self.now.underway) }
        ensures ended { end_in result ≡ (point_at self.now).ended }
    {
        if let Some(underway) = &self.underway {
            return match underway.trap {
                Some(trap) => Stage::Trap {
                    pc: underway.hart.pc(),
                    trap,
                },
                None => Stage::Segment,
            };
        }
        match self.serial.need() {
            Need::Segment(_) => Stage::Segment,
            Need::Keeper(_) => Stage::Segment,
            Need::Wake { .. } => Stage::Wake,
            Need::Ended(outcome) => Stage::End(outcome),
        }
    }

    /// How the run ends, at its last position. That an instruction traps is known once its step was tried.
    pub(crate) fn outcome(&self) -> Option<RunOutcome>
        requires { IsSound self.now }
        ensures { result ≡ outcome_at (moment_of self.now) (trap_found self.now.underway) }
    {
        match self.stage() {
            Stage::Segment | Stage::Wake => None,
            Stage::Trap { pc, trap } => Some(RunOutcome::Trap {
                thread: self.thread(),
                pc,
                trap,
            }),
            Stage::End(outcome) => Some(outcome),
        }
    }

    /// How many threads are created.
    pub(crate) fn thread_count(&self) -> u32
        ensures { result ≡ length (point_at self.now).state.threads }
    {
        self.serial.threads().len() as u32
    }
}
