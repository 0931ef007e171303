//! A position that is kept: what stands before its turn, and what of the turn was executed.
ghost use Rattle.std.specs.Prelude.{◌≡◌, IfOk};
ghost use Rattle.token.specs.Point.{Point};
ghost use Rattle.token.specs.RunInTurn.{point_of};

use crate::present::Present;
use hart::{Hart, Trap};
use paged_memory::Snapshot;
use std::alloc::AllocError;
use token::{NoRecord, Serial};

/// A position that is kept. The pages of its memories are shared.
#[derive(Drop)]
pub(crate) struct Checkpoint {
    pub(crate) serial: Box<Serial<NoRecord>>,
    pub(crate) before: u64,
    pub(crate) last: u32,
    pub(crate) begun: Option<Begun>,
}

/// What of a turn was executed.
#[derive(Drop)]
pub(crate) struct Begun {
    pub(crate) hart: Hart,
    pub(crate) done: u64,
    pub(crate) trap: Option<Trap>,
    /// The memory that the thread sees.
    pub(crate) memory: Snapshot,
}

impl Checkpoint {
    ghost use Rattle.timeline.specs.Present.{BeginsAt, IsSound, point_at, step_of};
    ghost use Rattle.timeline.specs.Checkpoint.{IsCheckpoint, KeepsTurn, step_at};

    /// The present position.
    pub(crate) fn of(present: &Present) -> Result<Self, AllocError>
        requires { IsSound present.now }
        ensures sound { IfOk result IsCheckpoint }
        ensures keeps { IfOk result (λ kept. (start : Point) → BeginsAt start present.now → KeepsTurn start kept) }
        ensures step { IfOk result (λ kept. step_at kept ≡ step_of present.now) }
        ensures point { IfOk result (λ kept. point_of kept.serial.value ≡ point_at present.now) }
        ensures before { IfOk result (λ kept. kept.before ≡ present.now.before) }
    {
        let begun = match &present.underway {
            Some(underway) => Some(underway.begun()?),
            None => None,
        };
        Ok(Checkpoint {
            serial: copied(&present.serial)?,
            before: present.before,
            last: present.last,
            begun,
        })
    }

    /// How many steps were made before it.
    pub(crate) fn step_number(&self) -> u64
        requires { IsCheckpoint self.now }
        ensures { result ≡ step_at self.now }
    {
        match &self.begun {
            Some(begun) => self.before + begun.done,
            None => self.before,
        }
    }

    /// A run at this position.
    pub(crate) fn restored(&self) -> Result<Present, AllocError>
        requires { IsCheckpoint self.now }
        ensures sound { IfOk result IsSound }
        ensures begins { IfOk result (λ present. (start : Point) → KeepsTurn start self.now → BeginsAt start present) }
        ensures step { IfOk result (λ present. step_of present ≡ step_at self.now) }
        ensures point { IfOk result (λ present. point_at present ≡ point_of self.now.serial.value) }
        ensures before { IfOk result (λ present. present.before ≡ self.now.before) }
    {
        let mut present = Present {
            serial: copied(&self.serial)?,
            underway: None,
            before: self.before,
            last: self.last,
        };
        if let Some(begun) = &self.begun {
            present.resume(begun)?;
        }
        Ok(present)
    }
}

/// The same run, which may be gone on with apart from this one.
fn copied(serial: &Serial<NoRecord>) -> Result<Box<Serial<NoRecord>>, AllocError>
    ensures { IfOk result (λ copy. point_of copy.value ≡ point_of serial.now) }
{
    Ok(Box::new(serial.now().allocator(), serial.try_clone()?)?)
}
