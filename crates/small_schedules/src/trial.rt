//! The trait of what tells whether a run fails by a schedule.
ghost use Rattle.std.specs.Prelude.{Bool, IfOk};
ghost use denote.Param.Send.{IsSync};
ghost use Rattle.shuffled_phases.specs.declared.shuffle.Shuffle.{Shuffle as Schedule};

use shuffled_phases::Shuffle;
use std::alloc::AllocError;
use std::sync::Wait;
use std::thread::Threads;

/// What tells whether the run of a program fails by a schedule.
pub(crate) trait Trial {
    /// The run of a schedule fails, or it doesn't.
    ghost tells: { Self → Schedule → Bool → Type 0 };

    /// Whether the run of a schedule fails.
    fn fails<R: Threads + Wait + Sync>(&self, rt: &R, shuffle: Shuffle) -> Result<bool, AllocError>
        requires { IsSync R.row }
        ensures { IfOk result (tells self.now shuffle) };
}
