//! Tells gdb where and why the run stands.
use crate::life::Life;
use crate::pursuit::waits_for_next;
use crate::session::Session;
use gdb_shown::{
    INTERRUPT, NONE, PC, TRAP, WINDOW, end_text, exit_text, register, signal_of, stop_text,
};
use std::alloc::AllocError;
use token::RunOutcome;

impl Session {
    ghost use Rattle.std.specs.Prelude.{◌≡◌, [], true, false, None, OnOk};
    ghost use Rattle.gdb_shown.specs.Stops.{stop_shown};
    ghost use Rattle.timeline.specs.Present.{step_of};
    ghost use Rattle.gdb_protocol.specs.Interrupts.{IsInterrupted, waits_for_next};
    ghost use Rattle.gdb_protocol.specs.Moves.{Keeps, Stands, moment_in, only_at, thread_in};

    /// Keeps the text of the first stop, which gdb asks for.
    pub(crate) fn begin(&mut self) -> Result<(), AllocError>
        ensures stop { OnOk result (self.new.stop.items ≡ stop_shown (moment_in self.old) 5 [] (thread_in self.old)) }
        ensures rest { self.new ≡ record self.old { stop = self.new.stop; selection = self.new.selection; printed = self.new.printed } }
    {
        let thread = self.timeline.thread();
        self.stop = stop_text(self.alloc, &self.timeline, TRAP, "", thread)?;
        self.selection.hear_of(self.timeline.thread_count());
        self.selection.stop_at(thread);
        self.printed = self.timeline.serial().output().len();
        Ok(())
    }

    /// Stops with a signal, for a reason that may be empty, at a thread.
    pub(crate) fn tell(&mut self, signal: u8, reason: &str, thread: u32) -> Result<(), AllocError>
        ensures stands { Stands self.old self.new }
        ensures stopped { self.new.pursuit ≡ None }
        ensures keeps { Keeps self.old self.new }
    {
        self.pursuit = None;
        self.forget_notes_elsewhere();
        self.send_output()?;
        self.stop = stop_text(self.alloc, &self.timeline, signal, reason, thread)?;
        self.selection.stop_at(thread);
        self.send_stop()
    }

    /// Forgets that the end was told, or that a thread couldn't move alone, if that was at another position.
    fn forget_notes_elsewhere(&mut self)
        ensures end { self.new.told_end ≡ only_at (step_of self.old.timeline.present) self.old.told_end }
        ensures stuck { self.new.stuck ≡ only_at (step_of self.old.timeline.present) self.old.stuck }
        ensures rest { self.new ≡ record self.old { told_end = self.new.told_end; stuck = self.new.stuck } }
    {
        let here = self.timeline.step_number();
        self.told_end = self.told_end.filter(|step| *step == here);
        self.stuck = self.stuck.filter(|step| *step == here);
    }

    /// Answers with the last stop.
    pub(crate) fn send_stop(&mut self) -> Result<(), AllocError>
        ensures { self.new ≡ record self.old { wire = self.new.wire } }
    {
        self.wire.answer(self.stop.as_slice())
    }

    /// Stops at the thread of the position.
    pub(crate) fn tell_here(&mut self, signal: u8, reason: &str) -> Result<(), AllocError>
        ensures stands { Stands self.old self.new }
        ensures stopped { self.new.pursuit ≡ None }
        ensures keeps { Keeps self.old self.new }
    {
        let thread = self.timeline.thread();
        self.tell(signal, reason, thread)
    }

    /// Stops at a breakpoint at the pc of the position's thread.
    pub(crate) fn tell_breakpoint(&mut self) -> Result<(), AllocError>
        ensures stands { Stands self.old self.new }
        ensures stopped { self.new.pursuit ≡ None }
        ensures keeps { Keeps self.old self.new }
    {
        let pc = register(&self.timeline, self.timeline.thread(), PC);
        let reason = if self.points.has_software(pc) {
            if self.knows_swbreak { "swbreak:;" } else { "" }
        } else if self.knows_hwbreak {
            "hwbreak:;"
        } else {
            ""
        };
        self.tell_here(TRAP, reason)
    }

    /// Stops, since the step of a thread is done.
    pub(crate) fn tell_step(&mut self, thread: u32) -> Result<(), AllocError>
        ensures stands { Stands self.old self.new }
        ensures stopped { self.new.pursuit ≡ None }
        ensures keeps { Keeps self.old self.new }
    {
        self.tell(TRAP, "", thread)
    }

    /// Stops at the run's start.
    pub(crate) fn tell_start(&mut self) -> Result<(), AllocError>
        ensures stands { Stands self.old self.new }
        ensures stopped { self.new.pursuit ≡ None }
        ensures keeps { Keeps self.old self.new }
    {
        self.tell_here(TRAP, "replaylog:begin;")
    }

    /// Stops where the user interrupts the run. If it stands, or gdb steps one thread alone, what goes on next is interrupted.
    pub(crate) fn interrupt(&mut self) -> Result<(), AllocError>
        ensures waits { waits_for_next self.old.pursuit ≡ true → self.new ≡ record self.old { is_interrupted = true } }
        ensures keeps { waits_for_next self.old.pursuit ≡ false → Keeps self.old self.new }
        ensures stops { waits_for_next self.old.pursuit ≡ false → Stands self.old self.new × (self.new.pursuit ≡ None) }
    {
        if waits_for_next(self.pursuit) {
            self.is_interrupted = true;
            return Ok(());
        }
        self.tell_here(INTERRUPT, "")
    }

    /// Stops where the run stands, since the user has interrupted what gdb goes on with.
    pub(crate) fn tell_interrupted(&mut self) -> Result<(), AllocError>
        ensures { IsInterrupted self.old self.new }
    {
        self.is_interrupted = false;
        self.tell_here(INTERRUPT, "")
    }

    /// Tells gdb of the first thread that it hasn't heard of.
    pub(crate) fn tell_creation(&mut self) -> Result<(), AllocError>
        ensures stands { Stands self.old self.new }
        ensures stopped { self.new.pursuit ≡ None }
        ensures keeps { Keeps self.old self.new }
    {
        let thread = self.selection.known;
        self.tell(TRAP, "create:;", thread)
    }

    /// Stops if another thread would have to move. If nothing moved, gdb is first led to let all threads go on.
    pub(crate) fn tell_stuck(&mut self, thread: u32) -> Result<(), AllocError>
        ensures stands { Stands self.old self.new }
        ensures stopped { OnOk result (self.new.pursuit ≡ None) }
        ensures keeps { Keeps self.old self.new }
    {
        let here = self.timeline.step_number();
        if self.from == here && self.stuck != Some(here) {
            self.stuck = Some(here);
            return self.tell(WINDOW, "", thread);
        }
        self.wire
            .print(b"dthreads: another thread would have to move\n")?;
        self.tell(NONE, "", thread)
    }

    /// Stops at the run's end or at a trap.
    pub(crate) fn tell_end(&mut self) -> Result<(), AllocError>
        ensures stands { Stands self.old self.new }
        ensures stopped { OnOk result (self.new.pursuit ≡ None) }
        ensures keeps { Keeps self.old self.new }
    {
        self.send_output()?;
        let here = self.timeline.step_number();
        let is_told = self.told_end == Some(here) && self.from == here;
        self.told_end = Some(here);
        let Some(outcome) = self.timeline.outcome() else {
            return self.tell_here(TRAP, "");
        };
        if !is_told {
            let line = end_text(self.alloc, outcome)?;
            self.wire.print(line.as_bytes())?;
        }
        match outcome {
            RunOutcome::Trap { trap, .. } => self.tell_here(signal_of(trap.cause), ""),
            _ => self.tell_here(TRAP, "replaylog:end;"),
        }
    }

    /// Ends the program for gdb, as the run ended.
    pub(crate) fn tell_over(&mut self, outcome: RunOutcome) -> Result<(), AllocError> {
        self.stop = exit_text(self.alloc, outcome)?;
        self.life = Life::Gone;
        self.pursuit = None;
        self.send_stop()
    }

    /// Sends what the guest wrote since the last time.
    pub(crate) fn send_output(&mut self) -> Result<(), AllocError>
        ensures { self.new ≡ record self.old { wire = self.new.wire; printed = self.new.printed } }
    {
        let output = self.timeline.serial().output();
        if self.printed < output.len() {
            self.wire.print(&output[self.printed..])?;
            self.printed = output.len();
        }
        Ok(())
    }
}
