//! The serial state: a run whose turns are a legal history. Memory is taken before anything changes.
#![tactic(auto, unfolding(crate::specs::RunInTurn::point_of))]

ghost use Rattle.std.specs.Prelude.{◌≡◌, ◌^◌, ◌<◌, ◌≤◌, ◌↔◌, [], None, Some, All, IsTrue, OnOk, OnErr, IfOk, IfErr, drop, length, option_map};
ghost use Rattle.token.specs.Point as point;

use crate::kept::Kept;
use crate::need::Need;
use crate::no_record::NoRecord;
use crate::recorder::Recorder;
use crate::run_in_turn::{MOST_TURNS, RunInTurn};
use crate::turn::Turn;
use crate::turn_change::TurnChange;
use crate::turn_fault::TurnFault;
use commit::Patch;
use condvar_barrier::Objects;
use paged_memory::Snapshot;
use segment::{Segment, SegmentEnd};
use shuffled_phases::Shuffle;
use std::alloc::AllocError;
use std::marker::Model;
use thread_table::{ThreadNumbers, Threads};

/// The patch of a segment's end, and none at a wake.
fn patch_of(end: Option<&SegmentEnd>) -> Option<&Patch>
    ensures { option_map (λ patch. patch.now) result ≡ point.patch_of (option_map (λ end. end.now) end.entry) }
{
    match end {
        Some(end) => Some(&end.patch),
        None => None,
    }
}

/// The serial state of a run: what it was given, what stands after the turns that it has done, and a recorder of
/// these turns. They are a legal history, and the recorder has recorded exactly its turns and its changes. A turn
/// breaks that for a while, and so is done on the `RunInTurn` inside.
#[derive(Drop)]
pub struct Serial<R: Recorder> {
    run: RunInTurn,
    recorder: R,
}

impl<R: Recorder> Model for Serial<R> {
    ghost use Rattle.token.specs.declared.run_in_turn.RunInTurn.{RunInTurn as Run};

    ghost Value = { Run };

    ghost use Rattle.token.specs.Serial.{IsRecorded};

    ghost view = { λ s. s.run };

    ghost invariant = { λ s. IsRecorded R.records s.recorder s.run };
}

impl<R: Recorder> Serial<R> {
    ghost use Rattle.paged_memory.specs.Snapshot.{cells_of};
    ghost use Rattle.token.specs.History.{IsHeldByKeeper};
    ghost use Rattle.token.specs.Point.{need_at, moved, step_at};
    ghost use Rattle.token.specs.RunInTurn.{point_of};
    ghost use Rattle.token.specs.Segments.{jobs_of, segment_in};
    ghost use Rattle.token.specs.Serial.{HasRecorded, IsAskedFor, IsLawful, IsLonger, IsNeeded, IsStart, fresh_at};
    ghost use Rattle.token.specs.declared.turn_fault.TurnFault.TheVariants.{WriteFailed};

    /// The run that begins so.
    pub(crate) fn from_start(run: RunInTurn, recorder: R) -> Self
        requires start { IsStart run }
        requires records { R.records recorder [] [] }
        ensures { result ≡ run }
    {
        Serial { run, recorder }
    }

    /// What the next turn needs, or how the run ended: the step of a turn with what it needs follows the legal
    /// history of the turns that were done. Where the run goes on, only the thread that keeps the token holds a
    /// mutex, so no turn finds one held by another thread.
    pub fn need(&self) -> Need
        ensures follows { IsAskedFor self.now }
        ensures need { result ≡ need_at (point_of self.now) }
        ensures holders { (point_of self.now).ended ≡ None → IsHeldByKeeper (point_of self.now).state.objects (point_of self.now).keeper }
    {
        self.run.need()
    }

    /// The memory at the start of the present phase.
    pub fn base(&self) -> &Snapshot
        ensures { cells_of result.now ≡ (point_of self.now).base }
    {
        self.run.base()
    }

    /// The present memory.
    pub fn now(&self) -> &Snapshot
        ensures { cells_of result.now ≡ (point_of self.now).state.memory }
    {
        self.run.shared.memory()
    }

    /// The present threads.
    pub fn threads(&self) -> &Threads
        ensures { result.now ≡ (point_of self.now).state.threads }
    {
        self.run.shared.threads()
    }

    /// The present mutexes, condition variables and barriers.
    pub fn objects(&self) -> &Objects
        ensures { result.now ≡ (point_of self.now).state.objects }
    {
        self.run.shared.objects()
    }

    /// The output so far.
    pub fn output(&self) -> &[u8]
        ensures { result.now ≡ (point_of self.now).state.output }
    {
        self.run.shared.output()
    }

    /// The bytes by which the last turn lengthened the output.
    pub fn fresh(&self) -> &[u8]
        ensures { result.now ≡ fresh_at (point_of self.now) }
    {
        &self.run.shared.output()[self.run.fresh_from..]
    }

    /// How many turns were done.
    pub fn done(&self) -> u64
        ensures { result ≡ (point_of self.now).done }
    {
        self.run.done
    }

    /// Its recorder, which has recorded the turns and the changes of a legal history after which the run stands.
    pub fn into_recorder(self) -> R
        ensures { HasRecorded R.records result self }
    {
        self.recorder
    }

    /// The number of the phase that the next turn is of, from 1.
    pub fn phase(&self) -> u64
        ensures { result ≡ (point_of self.now).phase }
    {
        self.run.phase.number
    }

    /// The threads that have a turn in the present phase, in the order of their turns.
    pub fn list(&self) -> &[u32]
        ensures { result.now ≡ (point_of self.now).list }
    {
        self.run.phase.list.as_slice()
    }

    /// Those of the list that weren't given the token, in the order of their turns.
    pub fn rest(&self) -> &[u32]
        ensures { result.now ≡ drop (point_of self.now).given (point_of self.now).list }
    {
        &self.run.phase.list.as_slice()[self.run.phase.given..]
    }

    /// The threads that have a segment in the present phase, in the order of their turns: those of its list that are ready where it begins.
    pub fn jobs(&self) -> ThreadNumbers
        ensures jobs { result.items ≡ jobs_of (point_of self.now).base_threads (point_of self.now).list }
        ensures made { All (λ n. n < length (point_of self.now).base_threads) result.items }
    {
        self.run.phase.jobs()
    }

    /// The segment of a thread in the present phase, if it is fresh there.
    pub fn segment_of(&self, thread: u32) -> Segment
        requires { thread < length (point_of self.now).base_threads }
        ensures { result ≡ segment_in (point_of self.now).setup (point_of self.now).phase (point_of self.now).base_threads thread }
    {
        self.run.segment_of(thread)
    }

    /// The threads at the start of the present phase.
    pub fn base_threads(&self) -> &Threads
        ensures { result.now ≡ (point_of self.now).base_threads }
    {
        &self.run.phase.threads
    }

    /// Whether as many turns were done as a run may have.
    fn is_full(&self) -> bool
        ensures { IsTrue result ↔ (2 ^ 63 ≤ (point_of self.now).done) }
    {
        self.run.done >= MOST_TURNS
    }

    /// Does the next turn, with the end of the segment that it needs, or with none at a wake, and answers it. Where
    /// memory is refused or the recorder fails, the state is as it was and nothing is recorded.
    pub fn turn(&mut self, end: Option<&SegmentEnd>) -> Result<Turn, TurnFault>
        requires { IsNeeded self.old (option_map (λ end. end.now) end) }
        ensures turn { IfOk result (λ turn. turn ≡ (step_at (point_of self.old) (option_map (λ end. end.now) end.entry)).turn) }
        ensures moved { OnOk result
            (point_of self.new ≡ moved (point_of self.old) (step_at (point_of self.old) (option_map (λ end. end.now) end.entry))) }
        ensures longer { OnOk result (IsLonger (point_of self.old) (point_of self.new)) }
        ensures kept { OnErr result (point_of self.new ≡ point_of self.old) }
        ensures fault { IfErr result (λ fault. fault ≡ WriteFailed → R.writes) }
    {
        if self.is_full() {
            return Err(TurnFault::OutOfMemory);
        }
        self.recorder.prepare(patch_of(end))?;
        let turn = self.run.turn(end)?;
        self.recorder.record(turn);
        Ok(turn)
    }
}

impl Serial<NoRecord> {
    ghost use Rattle.token.specs.RunInTurn.{point_of};

    /// A second run at the same point: what is done to one leaves the other as it is. The pages of the memories are
    /// shared, all else is copied.
    pub fn try_clone(&self) -> Result<Self, AllocError>
        ensures { IfOk result (λ copy. point_of copy ≡ point_of self.now) }
    {
        Ok(Serial {
            run: self.run.try_clone()?,
            recorder: NoRecord,
        })
    }
}

impl Serial<Kept> {
    ghost use Rattle.token.specs.Serial.{HasTurns, HasChanges};

    /// The turns that were done, the first one first. They are those of a legal history.
    pub fn turns(&self) -> &[Turn]
        ensures { HasTurns result.now self.now }
    {
        self.recorder.turns()
    }

    /// What each turn changed, in the order of the turns of a legal history.
    pub fn changes(&self) -> &[TurnChange]
        ensures { HasChanges result.now self.now }
    {
        self.recorder.changes()
    }
}
