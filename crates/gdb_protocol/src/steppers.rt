//! Steps of a thread, forward: its turn, its first instruction, and the way to its next one.
ghost use Rattle.std.specs.Prelude.{◌≡◌};
ghost use Rattle.gdb_protocol.specs.Pursuing.{outside};

use crate::moving::anywhere;
use crate::pursuit::Pursuit;
use crate::session::Session;
use gdb_orders::Stepper;
use gdb_shown::{PC, register};
use std::alloc::AllocError;
use thread_table::Status;
use timeline::{Arrival, Halt};

impl Session {
    ghost use Rattle.std.specs.Prelude.{None, OnOk, Some};
    ghost use Rattle.gdb_orders.specs.Orders.{alone_in};
    ghost use Rattle.gdb_protocol.specs.Moves.{Keeps, Stands};
    ghost use Rattle.gdb_protocol.specs.Pursuing as spec;
    ghost use Rattle.gdb_protocol.specs.Pursuing.{Goes, known_unless, slice, wanted_with, watched_with};

    /// Goes on to the turn of a stepped thread. A breakpoint at its first instruction isn't looked at.
    pub(crate) fn pursue_turn(&mut self, stepper: Stepper) -> Result<(), AllocError>
        ensures goes { OnOk result (Goes self.old
            (wanted_with self.old.points (spec.anywhere stepper.thread) (alone_in stepper) (known_unless self.old (alone_in stepper)))
            slice (spec.after_turn stepper self.old.pursuit self.new.timeline) self.new) }
        ensures keeps { Keeps self.old self.new }
    {
        let moving = stepper.alone();
        let known_threads = self.known_unless(moving);
        let halt = self.go_to(anywhere(stepper.thread), moving, known_threads)?;
        self.meet_turn(halt, stepper)
    }

    /// Tells a halt on the way to the turn of a stepped thread, or goes on to its first instruction.
    fn meet_turn(&mut self, halt: Halt, stepper: Stepper) -> Result<(), AllocError>
        ensures stands { Stands self.old self.new }
        ensures next { OnOk result (self.new.pursuit ≡ spec.after_turn stepper self.old.pursuit self.old.timeline halt) }
        ensures keeps { Keeps self.old self.new }
    {
        match halt {
            Halt::Arrived => {
                self.pursuit = Some(Pursuit::First(stepper));
                Ok(())
            }
            Halt::Breakpoint => self.pass_breakpoint(stepper),
            _ => self.meet(halt, stepper.alone()),
        }
    }

    /// Goes on to the first instruction of a stepped thread if a breakpoint is there, and tells any other breakpoint.
    fn pass_breakpoint(&mut self, stepper: Stepper) -> Result<(), AllocError>
        ensures stands { Stands self.old self.new }
        ensures next { OnOk result
            (self.new.pursuit ≡ spec.after_turn stepper self.old.pursuit self.old.timeline Halt.Breakpoint) }
        ensures keeps { Keeps self.old self.new }
    {
        if !self.is_turn_of(stepper.thread) {
            return self.tell_breakpoint();
        }
        self.pursuit = Some(Pursuit::First(stepper));
        Ok(())
    }

    /// Executes the first instruction of a stepped thread, unless there is a watch event.
    pub(crate) fn pursue_first(&mut self, stepper: Stepper) -> Result<(), AllocError>
        ensures goes { OnOk result
            (Goes self.old (watched_with self.old.points) 1 (spec.after_first stepper self.old.pursuit self.new.timeline) self.new) }
        ensures keeps { Keeps self.old self.new }
    {
        let halt = self.go_one()?;
        self.meet_first(halt, stepper)
    }

    /// Tells a halt at the first instruction of a stepped thread, or what comes of its execution.
    fn meet_first(&mut self, halt: Halt, stepper: Stepper) -> Result<(), AllocError>
        ensures stands { Stands self.old self.new }
        ensures next { OnOk result (self.new.pursuit ≡ spec.after_first stepper self.old.pursuit self.old.timeline halt) }
        ensures keeps { Keeps self.old self.new }
    {
        match halt {
            Halt::GoesOn => self.follow_first(stepper),
            _ => self.meet(halt, stepper.alone()),
        }
    }

    /// Goes on to the next instruction of a stepped thread, or tells that its step is done.
    fn follow_first(&mut self, stepper: Stepper) -> Result<(), AllocError>
        ensures stands { Stands self.old self.new }
        ensures next { OnOk result
            (self.new.pursuit ≡ spec.after_first stepper self.old.pursuit self.old.timeline Halt.GoesOn) }
        ensures keeps { Keeps self.old self.new }
    {
        self.send_output()?;
        if self.is_step_done(&stepper) {
            return self.tell_step(stepper.thread);
        }
        self.pursuit = Some(Pursuit::Next(stepper));
        Ok(())
    }

    /// Whether the step of a thread is done right after its first instruction: it has ended, or moves alone by one
    /// instruction.
    fn is_step_done(&self, stepper: &Stepper) -> bool
        ensures { result ≡ spec.is_step_done self.now.timeline stepper.now }
    {
        self.is_done(stepper.thread) || (stepper.is_alone && !stepper.has_range())
    }

    /// Whether a thread has ended.
    fn is_done(&self, thread: u32) -> bool
        ensures { result ≡ spec.is_done self.now.timeline thread }
    {
        matches!(self.timeline.status(thread), Some(Status::Done(_)))
    }

    /// Whether it is a thread's turn.
    pub(crate) fn is_turn_of(&self, thread: u32) -> bool
        ensures { result ≡ spec.is_turn_of self.now.timeline thread }
    {
        self.timeline.thread() == thread
    }

    /// Goes on in the turn of a stepped thread to its next instruction outside its range.
    pub(crate) fn pursue_next(&mut self, stepper: Stepper) -> Result<(), AllocError>
        ensures goes { OnOk result (Goes self.old
            (wanted_with self.old.points (spec.outside stepper) (Some stepper.thread) (known_unless self.old (alone_in stepper)))
            slice (spec.after_next stepper self.old.pursuit self.new.timeline) self.new) }
        ensures keeps { Keeps self.old self.new }
    {
        let moving = stepper.alone();
        let known_threads = self.known_unless(moving);
        let halt = self.go_to(outside(&stepper), Some(stepper.thread), known_threads)?;
        self.meet_next(halt, stepper)
    }

    /// Tells a halt on the way to the next instruction of a stepped thread, or goes on to its next turn.
    fn meet_next(&mut self, halt: Halt, stepper: Stepper) -> Result<(), AllocError>
        ensures stands { Stands self.old self.new }
        ensures next { OnOk result (self.new.pursuit ≡ spec.after_next stepper self.old.pursuit self.old.timeline halt) }
        ensures keeps { Keeps self.old self.new }
    {
        match halt {
            Halt::OtherThread => self.leave_turn(stepper),
            Halt::Arrived => self.tell_step(stepper.thread),
            Halt::Breakpoint => self.meet_next_breakpoint(stepper),
            _ => self.meet(halt, stepper.alone()),
        }
    }

    /// Tells a breakpoint on the way of a stepped thread. One instruction alone is done there.
    fn meet_breakpoint(&mut self, stepper: Stepper) -> Result<(), AllocError>
        ensures stands { Stands self.old self.new }
        ensures stopped { self.new.pursuit ≡ None }
        ensures keeps { Keeps self.old self.new }
    {
        if stepper.has_range() {
            return self.tell_breakpoint();
        }
        self.tell_step(stepper.thread)
    }

    /// Goes on to the next turn of a stepped thread, or tells that the step is done or that it can't be.
    fn leave_turn(&mut self, stepper: Stepper) -> Result<(), AllocError>
        ensures stands { Stands self.old self.new }
        ensures next { OnOk result
            (self.new.pursuit ≡ spec.after_next stepper self.old.pursuit self.old.timeline Halt.OtherThread) }
        ensures keeps { Keeps self.old self.new }
    {
        if self.is_done(stepper.thread) {
            return self.tell_step(stepper.thread);
        }
        if stepper.is_alone {
            return self.tell_stuck(stepper.thread);
        }
        self.pursuit = Some(Pursuit::Again(stepper));
        self.send_output()
    }

    /// Goes on to the next turn of a stepped thread, and in its range from there.
    pub(crate) fn pursue_again(&mut self, stepper: Stepper) -> Result<(), AllocError>
        ensures goes { OnOk result (Goes self.old
            (wanted_with self.old.points (spec.anywhere stepper.thread) (alone_in stepper) (known_unless self.old (alone_in stepper)))
            slice (spec.after_again stepper self.old.pursuit self.new.timeline) self.new) }
        ensures keeps { Keeps self.old self.new }
    {
        let moving = stepper.alone();
        let known_threads = self.known_unless(moving);
        let halt = self.go_to(anywhere(stepper.thread), moving, known_threads)?;
        self.meet_again(halt, stepper)
    }

    /// Tells a halt on the way to the next turn of a stepped thread, or goes on in its range.
    fn meet_again(&mut self, halt: Halt, stepper: Stepper) -> Result<(), AllocError>
        ensures stands { Stands self.old self.new }
        ensures next { OnOk result (self.new.pursuit ≡ spec.after_again stepper self.old.pursuit self.old.timeline halt) }
        ensures keeps { Keeps self.old self.new }
    {
        match halt {
            Halt::Arrived => self.go_on_inside(stepper),
            Halt::Breakpoint => self.meet_next_breakpoint(stepper),
            _ => self.meet(halt, stepper.alone()),
        }
    }

    /// Tells a breakpoint on the way to the next instruction of a stepped thread. One of another thread is told as that thread's,
    /// unless it would have to move while the stepped one moves alone.
    fn meet_next_breakpoint(&mut self, stepper: Stepper) -> Result<(), AllocError>
        ensures stands { Stands self.old self.new }
        ensures stopped { OnOk result (self.new.pursuit ≡ None) }
        ensures keeps { Keeps self.old self.new }
    {
        if self.is_turn_of(stepper.thread) {
            return self.meet_breakpoint(stepper);
        }
        if stepper.is_alone {
            return self.tell_stuck(stepper.thread);
        }
        self.tell_breakpoint()
    }

    /// Goes on in the range of a stepped thread, or tells that its step is done.
    fn go_on_inside(&mut self, stepper: Stepper) -> Result<(), AllocError>
        ensures stands { Stands self.old self.new }
        ensures next { OnOk result
            (self.new.pursuit ≡ spec.after_again stepper self.old.pursuit self.old.timeline Halt.Arrived) }
        ensures keeps { Keeps self.old self.new }
    {
        let pc = register(&self.timeline, stepper.thread, PC);
        if !stepper.is_within(pc) {
            return self.tell_step(stepper.thread);
        }
        self.pursuit = Some(Pursuit::Next(stepper));
        Ok(())
    }
}

/// An instruction of a stepped thread outside its range.
fn outside(stepper: &Stepper) -> Option<Arrival>
    ensures { result ≡ outside stepper.now }
{
    Some(Arrival {
        thread: stepper.thread,
        start: stepper.start,
        end: stepper.end,
    })
}
