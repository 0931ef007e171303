//! A run that can be asked for any of its positions.
use crate::halt::Halt;
use crate::line::Line;
use crate::motion::moved;
use crate::shown::Sees;
use crate::spacing::Spacing;
use crate::stage::Stage;
use crate::stops::Stops;
use hart::Hart;
use std::alloc::{AllocError, Global};
use std::marker::Model;
use thread_table::Status;
use token::{NoRecord, RunOutcome, Serial, Start};

/// A run at one of its positions, that can be asked for any other.
#[derive(Drop)]
pub struct Timeline {
    line: Line,
}

impl Model for Timeline {
    ghost use Rattle.std.specs.Coded.{codes};
    ghost use Rattle.commit.specs.contracts.patch.Patch as patch;
    ghost use Rattle.timeline.specs.declared.line.Line.{Line as Stored};

    ghost Value = { Stored };

    ghost coded = { Prim.hlevel (codes, patch.the_row.coded) };

    ghost use Rattle.timeline.specs.Line.{IsLine};

    ghost view = { λ t. t.line };

    ghost invariant = { λ t. IsLine t.line };
}

impl Timeline {
    ghost use Rattle.std.specs.Prelude.{◌≡◌, ◌<◌, ◌≤◌, ◌^◌, length, Some, IfOk, IfSome, OnErr, OnOk, option_map};
    ghost use Rattle.token.specs.RunInTurn.{point_of};
    ghost use Rattle.timeline.specs.Backward.{GoesBack};
    ghost use Rattle.timeline.specs.Going.{IsAt, IsRefused, IsSought, IsStepped, goal_of};
    ghost use Rattle.timeline.specs.Halting.{HaltsThere, NoneBetween};
    ghost use Rattle.timeline.specs.Halts.{nothing, wanted_by};
    ghost use Rattle.timeline.specs.Last.{IsLast};
    ghost use Rattle.timeline.specs.Line.{SameRun, start_of};
    ghost use Rattle.timeline.specs.Moment.{moment_at};
    ghost use Rattle.timeline.specs.Present.{moment_of, step_of, steps_of};
    ghost use Rattle.timeline.specs.Shown as shown;
    ghost use Rattle.timeline.specs.Told.{IsTrapThere, end_in, outcome_at, stage_at, thread_at, trap_found, turn_at};

    /// A run at its first position. Its quantum, if it has one, isn't 0.
    pub fn open(alloc: Global, start: Start, spacing: Spacing) -> Result<Self, AllocError>
        requires { IfSome (point_of start).setup.quantum (λ q. 0 < q) }
        ensures start { IfOk result (λ timeline. start_of timeline ≡ point_of start) }
        ensures first { IfOk result (λ timeline. step_of timeline.present ≡ 0) }
    {
        let line = Line::open(alloc, start.recorded_by(NoRecord), spacing)?;
        Ok(Timeline { line })
    }

    /// How many steps were made from the first position to the present one.
    pub fn step_number(&self) -> u64
        ensures step { result ≡ step_of self.now.present }
        ensures position { moment_at (start_of self.now) result ≡ Some (moment_of self.now.present) }
        ensures few { result ≤ 2 ^ 63 }
    {
        self.line.present.step_number()
    }

    /// The present turn, from 1: one more than the turns that were done. At the end of the run it is the last one.
    pub fn turn(&self) -> u64
        ensures { result ≡ turn_at (moment_of self.now.present).point }
    {
        self.line.present.turn_number()
    }

    /// How many instructions of the present turn were executed.
    pub fn steps_of_turn(&self) -> u64
        ensures { result ≡ steps_of self.now.present.underway }
    {
        self.line.present.steps()
    }

    /// The present phase, from 1.
    pub fn phase(&self) -> u64
        ensures { result ≡ (moment_of self.now.present).point.phase }
    {
        self.line.present.serial.phase()
    }

    /// The thread whose turn it is, at the end of the run that of the last turn.
    pub fn thread(&self) -> u32
        ensures thread { result ≡ thread_at (moment_of self.now.present).point self.now.present.last }
        ensures last { IsLast (moment_of self.now.present).point self.now.present.last }
    {
        self.line.present.thread()
    }

    /// What the run is about to do. That an instruction traps is known once its step was tried.
    pub fn stage(&self) -> Stage
        ensures stage { result ≡ stage_at (moment_of self.now.present) (trap_found self.now.present.underway) }
        ensures trap { IsTrapThere (moment_of self.now.present) (trap_found self.now.present.underway) }
        ensures ended { end_in result ≡ (moment_of self.now.present).point.ended }
    {
        self.line.present.stage()
    }

    /// How the run ends, at its last position. That an instruction traps is known once its step was tried.
    pub fn outcome(&self) -> Option<RunOutcome>
        ensures { result ≡ outcome_at (moment_of self.now.present) (trap_found self.now.present.underway) }
    {
        self.line.present.outcome()
    }

    /// How many threads are created.
    pub fn thread_count(&self) -> u32
        ensures { result ≡ length (moment_of self.now.present).point.state.threads }
    {
        self.line.present.thread_count()
    }

    /// What a thread does, none if it isn't created.
    pub fn status(&self, thread: u32) -> Option<Status>
        ensures { result ≡ option_map (λ row. row.status) (shown.row_at (moment_of self.now.present).point thread) }
    {
        self.line.present.status(thread)
    }

    /// The registers of a thread, none if it isn't created. Those of a thread that waits in a call are shown as after
    /// its ecall.
    pub fn hart(&self, thread: u32) -> Option<Hart>
        ensures { result ≡ shown.hart_shown (moment_of self.now.present) thread }
    {
        self.line.present.hart(thread)
    }

    /// The byte that a thread sees at an address, none if it isn't mapped.
    pub fn byte(&self, thread: u32, address: u32) -> Option<u8>
        ensures { result ≡ shown.byte_shown (moment_of self.now.present) thread address }
    {
        self.line.present.byte(thread, address)
    }

    /// Which memory a thread sees.
    pub fn sees(&self, thread: u32) -> Sees
        ensures { result ≡ shown.sees_at (moment_of self.now.present) thread }
    {
        self.line.present.sees(thread)
    }

    /// The run as it stands before the present turn.
    pub fn serial(&self) -> &Serial<NoRecord>
        ensures { point_of result.now ≡ (moment_of self.now.present).point }
    {
        &self.line.present.serial
    }

    /// A second run at the first position.
    pub fn beginning(&self) -> Result<Serial<NoRecord>, AllocError>
        ensures { IfOk result (λ serial. point_of serial ≡ start_of self.now) }
    {
        self.line.checkpoints.first.serial.try_clone()
    }

    /// Makes a step. False if the run has none from here.
    pub fn step(&mut self) -> Result<bool, AllocError>
        ensures run { SameRun self.old self.new }
        ensures stepped { IfOk result (λ is. IsStepped self.old.present is self.new.present) }
        ensures refused { OnErr result (IsRefused nothing (start_of self.old) self.old.present self.new.present) }
    {
        moved(self.line.step())
    }

    /// Goes forward to the first position from the present one on at which it is asked to halt, or to the last one.
    /// After so many steps without one it stands there and answers that it goes on.
    pub fn forward(&mut self, stops: &Stops<'_>, most: u64) -> Result<Halt, AllocError>
        ensures run { SameRun self.old self.new }
        ensures passed { IfOk result
            (λ halt. NoneBetween (wanted_by stops.now) (start_of self.old) (step_of self.old.present) (step_of self.new.present)) }
        ensures since { OnOk result (step_of self.old.present ≤ step_of self.new.present) }
        ensures halts { IfOk result (λ halt. HaltsThere (wanted_by stops.now) (goal_of self.old.present most) halt self.new.present) }
        ensures refused { OnErr result (IsRefused (wanted_by stops.now) (start_of self.old) self.old.present self.new.present) }
    {
        moved(self.line.forward(stops, most))
    }

    /// Goes back to the last position before the present one at which it is asked to halt, or to the first one. It looks
    /// through one interval between checkpoints, and if it finds none there it stands at the interval's start and
    /// answers that it goes on.
    pub fn back(&mut self, stops: &Stops<'_>) -> Result<Halt, AllocError>
        ensures run { SameRun self.old self.new }
        ensures back { IfOk result
            (λ halt. GoesBack (wanted_by stops.now) (start_of self.old) (step_of self.old.present) halt (step_of self.new.present)) }
        ensures refused { OnErr result (self.new.present ≡ self.old.present) }
    {
        moved(self.line.back(stops))
    }

    /// Goes to a step, or to the last position if the run has none so far on. False if so many steps were made
    /// and it isn't there yet.
    pub fn seek(&mut self, step: u64, most: u64) -> Result<bool, AllocError>
        ensures run { SameRun self.old self.new }
        ensures position { IsAt (start_of self.new) self.new.present }
        ensures sought { IfOk result (λ is. IsSought self.old.present step most is self.new.present) }
        ensures refused { OnErr result (IsRefused nothing (start_of self.old) self.old.present self.new.present) }
    {
        moved(self.line.seek(step, most))
    }
}
