//! What is known of a run after some of its turns.
ghost use Rattle.std.specs.Prelude.{◌≡◌, List, [], ◌∷◌, IfOk, OnOk, if◌then◌else◌};
ghost use Rattle.std.specs.String.{string_bytes};
ghost use Rattle.trace_events.specs.Ending.{ending};
ghost use Rattle.trace_events.specs.Events as event;
ghost use Rattle.trace_events.specs.Events.{counter_events, events, phase_events};
ghost use Rattle.trace_events.specs.Recording.{AppendsOf, Knows, phase_at};
ghost use Rattle.trace_events.specs.Times.{begin, keeps_by, newest, number_by, time_by, timed_turn};
ghost use Rattle.trace_events.specs.declared.timed_turn.TimedTurn.{TimedTurn as TimedRecord};

use crate::ending::{write_rows, write_totals, write_unended};
use crate::event::write_counters;
use crate::events::write_events;
use crate::phase_counts::PhaseCounts;
use crate::recorded_turn::RecordedTurn;
use crate::release::Release;
use crate::sum::sum;
use crate::thread_state::ThreadState;
use crate::threads::{note_turn, thread_at};
use crate::timed_turn::{TimedTurn, is_wake, number_of, time_of};
use crate::wait::Wait;
use crate::waiting_thread::{WaitingThread, let_go, pass_on};
use std::alloc::{AllocError, Global};
use token::{Turn, TurnFault};

/// What is known of a run after some of its turns. It grows with the threads, not with the turns.
#[derive(Drop)]
pub struct RunProgress {
    alloc: Global,
    /// The last turn.
    last: Option<TimedTurn>,
    /// What is counted of its phase.
    phase: PhaseCounts,
    /// How many instructions all threads executed.
    instructions: u64,
    /// The threads that wait, the first to come in front.
    waiters: Vec<WaitingThread>,
    /// What is known of each thread.
    threads: Vec<ThreadState>,
}

impl RunProgress {
    /// What is known before the first turn.
    pub(crate) fn new(alloc: Global) -> Self
        ensures { Knows result [] }
    {
        RunProgress {
            alloc,
            last: None,
            phase: PhaseCounts {
                start: 0,
                ready: 0,
                pages: 0,
            },
            instructions: 0,
            waiters: Vec::new(alloc),
            threads: Vec::new(alloc),
        }
    }

    /// The next turn with its times.
    pub(crate) fn timed(&self, entry: RecordedTurn) -> Result<TimedTurn, TurnFault>
        ensures { IfOk result (λ timed. (done : List TimedRecord) → Knows self.now done → timed ≡ timed_turn done entry) }
    {
        let begin = self.begin(&entry.turn);
        let end = sum(begin, entry.turn.ran)?;
        Ok(TimedTurn {
            number: sum(number_of(self.last), 1)?,
            turn: entry.turn,
            pages: entry.pages,
            begin,
            time: time_of(self.last).max(end),
        })
    }

    /// Appends the events of the next turn.
    pub(crate) fn write(&self, text: &mut String, timed: &TimedTurn) -> Result<(), TurnFault>
        ensures { OnOk result (AppendsOf self.now (λ done. events done timed.now) (string_bytes text.old) (string_bytes text.new)) }
    {
        self.write_phase_before(text, timed)?;
        let state = thread_at(&self.threads, timed.turn.thread);
        write_events(text, &state, timed)
    }

    /// Takes note of the next turn.
    pub(crate) fn add(&mut self, timed: TimedTurn) -> Result<(), TurnFault>
        ensures { OnOk result ((done : List TimedRecord) → Knows self.old done → Knows self.new (timed ∷ done)) }
    {
        let turn = timed.turn;
        self.phase = self.phase_with(&timed)?;
        self.instructions = sum(self.instructions, turn.ran)?;
        let release = Release::of(turn.thread, turn.stop);
        let freed = let_go(self.alloc, release, &self.waiters)?;
        note_turn(&mut self.threads, &freed, timed)?;
        pass_on(&mut self.waiters, &freed, turn.thread, Wait::of(turn.stop))?;
        self.last = Some(timed);
        Ok(())
    }

    /// Appends what follows the events of the last turn.
    pub(crate) fn write_ending(&self, text: &mut String) -> Result<(), AllocError>
        ensures { OnOk result (AppendsOf self.now ending (string_bytes text.old) (string_bytes text.new)) }
    {
        self.write_phase(text)?;
        write_unended(text, &self.threads, time_of(self.last))?;
        write_totals(text, self.last, self.instructions)?;
        write_rows(text, &self.threads)?;
        text.push_str("]}}\n")?;
        Ok(())
    }

    /// Appends the counters of the last turn's phase, if the next turn begins another.
    fn write_phase_before(&self, text: &mut String, timed: &TimedTurn) -> Result<(), AllocError>
        ensures { OnOk result (AppendsOf self.now (λ done. phase_events done timed.now) (string_bytes text.old) (string_bytes text.new)) }
    {
        if self.is_in_phase(timed.turn.phase) {
            return Ok(());
        }
        self.write_phase(text)
    }

    /// Appends the counters of the last turn's phase.
    fn write_phase(&self, text: &mut String) -> Result<(), AllocError>
        ensures { OnOk result (AppendsOf self.now (λ done. counter_events done (newest done))
            (string_bytes text.old) (string_bytes text.new)) }
    {
        match self.last {
            Some(last) => {
                let phase = self.phase;
                write_counters(text, phase.start, last.time, phase.ready, phase.pages)
            }
            None => Ok(()),
        }
    }

    /// When the segment of the next turn begins.
    fn begin(&self, turn: &Turn) -> u64
        ensures { (done : List TimedRecord) → Knows self.now done → result ≡ begin done turn.now }
    {
        if self.keeps(turn) || is_wake(turn.stop) {
            time_of(self.last)
        } else {
            self.phase_so_far(turn.phase).start
        }
    }

    /// What is counted of a phase that goes on, or begins.
    fn phase_so_far(&self, phase: u64) -> PhaseCounts
        ensures { (done : List TimedRecord) → Knows self.now done → result ≡ phase_at done phase }
    {
        if self.is_in_phase(phase) {
            return self.phase;
        }
        PhaseCounts {
            start: time_of(self.last),
            ready: 0,
            pages: 0,
        }
    }

    /// What is counted of the phase of the next turn once that is done.
    fn phase_with(&self, timed: &TimedTurn) -> Result<PhaseCounts, TurnFault>
        ensures { IfOk result (λ phase. (done : List TimedRecord) → Knows self.now done →
            phase ≡ phase_at (timed.now ∷ done) timed.now.turn.phase) }
    {
        let before = self.phase_so_far(timed.turn.phase);
        Ok(PhaseCounts {
            start: before.start,
            ready: sum(before.ready, self.given(&timed.turn))?,
            pages: sum(before.pages, timed.pages)?,
        })
    }

    /// 1 for a turn whose thread is given the token, and 0 if it kept it.
    fn given(&self, turn: &Turn) -> u64
        ensures { result ≡ (if keeps_by self.now.last turn.now then 0 else 1) }
    {
        if self.keeps(turn) { 0 } else { 1 }
    }

    /// Whether a phase is that of the last turn.
    fn is_in_phase(&self, phase: u64) -> bool
        ensures { result ≡ event.is_in_phase phase self.now.last }
    {
        match self.last {
            Some(last) => last.turn.phase == phase,
            None => false,
        }
    }

    /// Whether the thread of the next turn kept the token.
    fn keeps(&self, turn: &Turn) -> bool
        ensures { result ≡ keeps_by self.now.last turn.now }
    {
        match self.last {
            Some(last) => last.turn.phase == turn.phase && last.turn.thread == turn.thread,
            None => false,
        }
    }
}
