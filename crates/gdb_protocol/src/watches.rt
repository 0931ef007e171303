//! Tells watch events, and steps over those that were told.
use crate::moving::anywhere;
use crate::session::Session;
use gdb_shown::{TRAP, WatchHit};
use std::alloc::AllocError;
use timeline::{Halt, Stops, WatchKind};

impl Session {
    ghost use Rattle.std.specs.Prelude.{◌≡◌, None, OnOk};
    ghost use Rattle.gdb_protocol.specs.Moves.{Keeps, Stands};

    /// Notes what gdb sees of the watched ranges where it resumes.
    pub(crate) fn arm(&mut self) -> Result<(), AllocError> {
        self.watching.arm(
            &self.timeline,
            self.points.watches(),
            self.selection.general,
        )
    }

    /// Tells an event of the watch at this place of the list, of a step of this thread.
    pub(crate) fn tell_watch(&mut self, place: usize, thread: u32) -> Result<(), AllocError>
        ensures stands { Stands self.old self.new }
        ensures stopped { OnOk result (self.new.pursuit ≡ None) }
        ensures keeps { Keeps self.old self.new }
    {
        let Some(watch) = self.points.watches().get(place).copied() else {
            return self.tell_here(TRAP, "");
        };
        self.watching.tell(&self.timeline, watch, thread)?;
        self.tell_range(name_of(watch.kind), watch.start, thread)
    }

    /// Tells a range that a step changed beside the one that was told.
    pub(crate) fn tell_other(&mut self, other: WatchHit) -> Result<(), AllocError> {
        self.tell_range("watch", other.address, other.thread)
    }

    /// Tells a range.
    fn tell_range(&mut self, kind: &str, address: u32, thread: u32) -> Result<(), AllocError>
        ensures stands { Stands self.old self.new }
        ensures stopped { OnOk result (self.new.pursuit ≡ None) }
        ensures keeps { Keeps self.old self.new }
    {
        let reason = format!(in self.alloc; "{kind}:{address:x};")?;
        self.tell(TRAP, reason.as_str(), thread)
    }

    /// The watch event that was told of this thread, if gdb steps it alone over that: all watchpoints are lifted.
    pub(crate) fn told_at(&self, alone: Option<u32>) -> Option<WatchHit> {
        let told = self.watching.told()?;
        if alone == Some(told.thread) && self.points.watches().is_empty() {
            Some(told)
        } else {
            None
        }
    }

    /// Steps a thread alone over a watch event that was told.
    pub(crate) fn step_over(&mut self, told: WatchHit) -> Result<(), AllocError> {
        self.watching.move_on();
        if told.is_still {
            return self.tell_step(told.thread);
        }
        let before = self.watching.look(&self.timeline, told.thread)?;
        if !self.timeline.step()? {
            return self.tell_end();
        }
        self.watching
            .see_step(&self.timeline, told, before.as_slice())?;
        self.tell_step(told.thread)
    }

    /// Steps a thread back alone over a watch event that was told.
    pub(crate) fn step_back_over(&mut self, told: WatchHit) -> Result<(), AllocError> {
        self.watching.move_on();
        if told.is_still {
            return self.tell_step(told.thread);
        }
        let before = self.watching.look(&self.timeline, told.thread)?;
        let stops = Stops {
            arrival: anywhere(told.thread),
            ..Stops::none()
        };
        if self.timeline.back(&stops)? != Halt::Arrived {
            return self.tell_start();
        }
        self.watching
            .see_step(&self.timeline, told, before.as_slice())?;
        self.tell_step(told.thread)
    }
}

/// The reason of a stop by a watch.
fn name_of(kind: WatchKind) -> &'static str {
    match kind {
        WatchKind::Store => "watch",
        WatchKind::Load => "rwatch",
        WatchKind::Access => "awatch",
    }
}
