//! A run and its turns.
#![tactic(auto, unfolding(crate::specs::RunInTurn::point_of))]

ghost use Rattle.std.specs.Prelude.{◌≡◌, ◌+◌, ◌^◌, ◌<◌, None, Some, Ok, IsSome, length, IfOk, OnOk, option_map};
ghost use Rattle.abi.specs.Limits as limit;
ghost use Rattle.token.specs.Point as point;

use crate::due::Due;
use crate::need::{Need, Work};
use crate::outcome::RunOutcome;
use crate::phase::Phase;
use crate::segment_turn::run_on;
use crate::segments::segment_of;
use crate::turn::{Turn, TurnStop};
use crate::verdict::{keeper_after, outcome_of_stop, quiet_outcome};
use call_table::SharedState;
use commit::changed;
use paged_memory::Snapshot;
use segment::{Segment, SegmentEnd};
use shuffled_phases::{Shuffle, fill_list, quantum_of};
use std::alloc::AllocError;
use thread_table::{Status, Thread, ThreadNumbers};

/// More turns than this are refused as if memory ran out. No run comes near it: that would take thousands of years.
pub(crate) const MOST_TURNS: u64 = 1 << 63;

/// A run, also in the middle of a turn. There its state may be one turn ahead of the turns that are counted and
/// recorded, so the fact that a `Serial` keeps of it doesn't hold: each method here says what it makes of the point where
/// the run stands, and `Serial` hands its calls on to them.
#[derive(Drop)]
pub struct RunInTurn {
    pub(crate) entry: u32,
    /// The memory at the start.
    pub(crate) first: Snapshot,
    pub(crate) bound: u64,
    pub(crate) quantum: Option<u64>,
    pub(crate) shuffle: Option<Shuffle>,
    pub(crate) phase: Phase,
    pub(crate) shared: SharedState,
    /// The thread that keeps the token.
    pub(crate) keeper: Option<u32>,
    pub(crate) outcome: Option<RunOutcome>,
    /// How many turns were done.
    pub(crate) done: u64,
    /// How long the output was before the last turn.
    pub(crate) fresh_from: usize,
}

impl RunInTurn {
    ghost use Rattle.paged_memory.specs.Snapshot.{cells_of};
    ghost use Rattle.thread_table.specs.declared.status.Status.TheVariants.{Ready};
    ghost use Rattle.call_table.specs.Shared.{state_of};
    ghost use Rattle.call_table.specs.State.{row_of};
    ghost use Rattle.token.specs.Due.{thread_due};
    ghost use Rattle.token.specs.RunInTurn.{point_of, HasDue, IsAmid, IsDue, MayTurn, TakesTurn};
    ghost use Rattle.token.specs.Segments.{segment_in};
    ghost use Rattle.token.specs.Setup.{quantum_in};

    /// The same run. The pages of its memories are shared, all else is copied.
    pub(crate) fn try_clone(&self) -> Result<Self, AllocError>
        ensures { IfOk result (λ copy. point_of copy ≡ point_of self.now) }
    {
        Ok(RunInTurn {
            entry: self.entry,
            first: self.first.try_clone()?,
            bound: self.bound,
            quantum: self.quantum,
            shuffle: self.shuffle,
            phase: self.phase.try_clone()?,
            shared: self.shared.try_clone()?,
            keeper: self.keeper,
            outcome: self.outcome,
            done: self.done,
            fresh_from: self.fresh_from,
        })
    }

    /// The memory that the present phase began with.
    pub(crate) fn base(&self) -> &Snapshot
        ensures { cells_of result.now ≡ (point_of self.now).base }
    {
        match &self.phase.base {
            Some(base) => base,
            None => self.shared.memory(),
        }
    }

    /// Who is due.
    #[tactic(auto, unfolding(crate::specs::RunInTurn::point_of, crate::specs::Point::due_at))]
    fn due(&self) -> Due
        requires { HasDue (point_of self.now) }
        ensures due { result ≡ point.due_at (point_of self.now) }
        ensures given { self.now.keeper ≡ None → self.now.phase.given < limit.threads }
    {
        if let Some(thread) = self.keeper {
            return Due::Keeper { thread };
        }
        let thread = self.phase.list.as_slice()[self.phase.given];
        match self.shared.threads().get(thread).status {
            Status::Woken(mutex) => Due::Woken { thread, mutex },
            Status::Ready | Status::Blocked | Status::Done(_) => Due::Fresh { thread },
        }
    }

    /// What who is due has in its base.
    fn base_row(&self, due: Due) -> &Thread
        requires { IsDue (point_of self.now) due }
        ensures { result.now ≡ row_of (point.base_at (point_of self.now) due) (thread_due due) }
    {
        match due {
            Due::Fresh { thread } => self.phase.threads.get(thread),
            Due::Keeper { thread } | Due::Woken { thread, .. } => self.shared.threads().get(thread),
        }
    }

    /// The number of the version that is its base.
    fn base_number(&self, due: Due) -> u64
        ensures { result ≡ point.base_number_at (point_of self.now) due }
    {
        match due {
            Due::Fresh { .. } => self.phase.first,
            Due::Keeper { .. } | Due::Woken { .. } => self.done,
        }
    }

    /// What the next turn needs.
    #[tactic(auto, unfolding(crate::specs::RunInTurn::point_of, crate::specs::Point::need_at))]
    pub(crate) fn need(&self) -> Need
        requires { self.now.outcome ≡ None → HasDue (point_of self.now) }
        ensures { result ≡ point.need_at (point_of self.now) }
    {
        if let Some(outcome) = self.outcome {
            return Need::Ended(outcome);
        }
        let due = self.due();
        match due {
            Due::Fresh { thread } => Need::Segment(self.work(due, self.quantum_of(thread))),
            Due::Keeper { .. } => Need::Keeper(self.work(due, None)),
            Due::Woken { thread, .. } => Need::Wake { thread },
        }
    }

    /// The quantum of a thread's fresh segment in the present phase.
    fn quantum_of(&self, thread: u32) -> Option<u64>
        ensures { result ≡ quantum_in (point_of self.now).setup (point_of self.now).phase thread (point_of self.now).base_threads }
    {
        quantum_of(
            self.shuffle,
            self.quantum,
            self.phase.number,
            thread,
            &self.phase.threads,
        )
    }

    /// The segment of a thread in the present phase, if it is fresh there.
    pub(crate) fn segment_of(&self, thread: u32) -> Segment
        requires { thread < length (point_of self.now).base_threads }
        ensures { result ≡ segment_in (point_of self.now).setup (point_of self.now).phase (point_of self.now).base_threads thread }
    {
        let row = self.phase.threads.get(thread);
        segment_of(row, self.bound, self.quantum_of(thread))
    }

    /// The segment of who is due, with this quantum.
    fn work(&self, due: Due, quantum: Option<u64>) -> Work
        requires { IsDue (point_of self.now) due }
        ensures { result ≡ point.work_from (point_of self.now).setup (point.base_at (point_of self.now) due) (thread_due due) quantum }
    {
        let row = self.base_row(due);
        Work {
            thread: due.thread(),
            segment: segment_of(row, self.bound, quantum),
        }
    }

    /// Does the next turn, with this end of the segment that it needs, and answers it.
    #[tactic(auto, unfolding(crate::specs::RunInTurn::point_of, crate::specs::Point::after_step, crate::specs::Point::counted))]
    pub(crate) fn turn(&mut self, end: Option<&SegmentEnd>) -> Result<Turn, AllocError>
        requires due { HasDue (point_of self.old) }
        requires ready { MayTurn (point_of self.old) (option_map (λ end. end.now) end) }
        requires phase { (point_of self.old).phase + 1 < 2 ^ 64 }
        requires done { (point_of self.old).done + 1 < 2 ^ 64 }
        ensures { TakesTurn self.old (option_map (λ end. end.now) end.entry) point.moved self.new result }
    {
        self.keep_base()?;
        let turn = match end {
            Some(end) => self.run_turn(end)?,
            None => self.wake_turn(),
        };
        self.pass_on();
        Ok(turn)
    }

    /// Keeps the memory that the phase began with, before it is changed.
    fn keep_base(&mut self) -> Result<(), AllocError>
        ensures kept { OnOk result (IsSome self.new.phase.base) }
        ensures point { point_of self.new ≡ point_of self.old }
        ensures done { self.new.done ≡ self.old.done }
    {
        if self.phase.base.is_none() {
            let base = self.shared.memory().try_clone()?;
            self.phase.base = Some(base);
        }
        Ok(())
    }

    /// The turn of a woken thread.
    #[tactic(auto, unfolding(crate::specs::RunInTurn::point_of, crate::specs::Point::after_step, crate::specs::Point::woken_step, crate::specs::Turns::wake_step))]
    fn wake_turn(&mut self) -> Turn
        requires { IsAmid self.old None }
        ensures { TakesTurn self.old None point.after_step self.new (Ok result) }
    {
        let due = self.due();
        let turn = Turn {
            phase: self.phase.number,
            thread: due.thread(),
            base: self.base_number(due),
            stop: TurnStop::Wake { mutex: due.mutex() },
            changed: 0,
            ran: 0,
        };
        let fresh_from = self.shared.output().len();
        self.shared.wake(due.thread(), due.mutex());
        self.count(&turn, fresh_from);
        turn
    }

    /// The turn of a thread whose segment ended.
    #[tactic(auto, unfolding(crate::specs::RunInTurn::point_of, crate::specs::Point::after_step, crate::specs::Point::ran_step))]
    fn run_turn(&mut self, end: &SegmentEnd) -> Result<Turn, AllocError>
        requires { IsAmid self.old (Some end.now) }
        ensures { TakesTurn self.old (Some end.now) point.after_step self.new result }
    {
        let due = self.due();
        let executed = self.base_row(due).executed + end.count;
        let fresh_from = self.shared.output().len();
        let base = self.base_number(due);
        let stop = run_on(&mut self.shared, due.thread(), end, executed)?;
        let turn = Turn {
            phase: self.phase.number,
            thread: due.thread(),
            base,
            stop,
            changed: changed(&end.patch),
            ran: end.count,
        };
        self.count(&turn, fresh_from);
        Ok(turn)
    }

    /// Counts a turn, once the state is the one after it.
    #[tactic(auto, unfolding(crate::specs::RunInTurn::point_of, crate::specs::Point::counted))]
    fn count(&mut self, turn: &Turn, fresh_from: usize)
        requires base { IsSome self.old.phase.base }
        requires thread { turn.now.thread < length (state_of self.old.shared).threads }
        requires given { self.old.keeper ≡ None → self.old.phase.given < limit.threads }
        requires done { (point_of self.old).done + 1 < 2 ^ 64 }
        ensures { point_of self.new ≡ point.counted (point_of self.old) turn.now fresh_from }
    {
        if self.keeper.is_none() {
            self.phase.given += 1;
        }
        self.outcome = outcome_of_stop(turn.thread, &turn.stop);
        self.keeper = keeper_after(&self.shared, turn.thread, self.outcome);
        self.fresh_from = fresh_from;
        self.done += 1;
    }

    /// Begins the next phase where the list is used up, or ends the run where nobody has a turn.
    #[tactic(auto, unfolding(crate::specs::RunInTurn::point_of, crate::specs::Point::passed_on, crate::specs::Point::next_phase))]
    fn pass_on(&mut self)
        requires { (point_of self.old).phase + 1 < 2 ^ 64 }
        ensures { point_of self.new ≡ point.passed_on (point_of self.old) }
    {
        if self.outcome.is_some()
            || self.keeper.is_some()
            || self.phase.given < self.phase.list.len()
        {
            return;
        }
        let mut list = ThreadNumbers::new();
        let next = self.phase.number + 1;
        fill_list(self.shuffle, next, self.shared.threads(), &mut list);
        if list.is_empty() {
            self.outcome = Some(quiet_outcome(&self.shared));
            return;
        }
        self.phase.begin(self.done, self.shared.threads(), &list);
    }
}
