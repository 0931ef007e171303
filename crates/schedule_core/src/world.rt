//! A run driven by written events, and what it lends amid them.
use crate::event_fault::EventFault;
use crate::refused_event::RefusedEvent;
use crate::scene::Scene;
use crate::seat::Seat;
use crate::turns::{add_idle, outcome_of};
use elf32_reader::Image;
use hart::Hart;
use paged_memory::Snapshot;
use schedule::Event;
use shuffled_phases::Shuffle;
use std::alloc::{AllocError, Global};
use std::marker::Model;
use thread_table::CAPACITY;
use token::{Kept, Need, RunOutcome, Start, Turn, one_history};
use twins::View;

/// A run that goes by written events: workers draw jobs, step them, skip or post them, and turns are taken
/// when their results are there. Whatever the events are, its turns are those of the one legal history.
#[derive(Drop)]
pub struct World {
    scene: Scene,
}

impl Model for World {
    ghost use Rattle.std.specs.Coded.{codes};
    ghost use Rattle.commit.specs.contracts.patch.Patch as patch;
    ghost use Rattle.schedule_core.specs.declared.scene.Scene.{Scene as Stored};

    ghost Value = { Stored };

    ghost coded = { Prim.hlevel (codes, patch.the_row.coded) };

    ghost use Rattle.schedule_core.specs.Scene.{IsSound};

    ghost view = { λ w. w.scene };

    ghost invariant = { λ w. IsSound w.scene };
}

impl World {
    ghost use Rattle.std.specs.Prelude.{◌≡◌, ◌≤◌, ◌<◌, [], length, IfOk, IfErr, IfSome, OnOk, OnErr, option_map, slice_get};
    ghost use Rattle.paged_memory.specs.Snapshot.{cells_of};
    ghost use Rattle.abi.specs.Limits as limit;
    ghost use Rattle.twins.specs.View as views;
    ghost use Rattle.schedule.specs.Phase.{begun, opened};
    ghost use Rattle.token.specs.History.{History, turns_of};
    ghost use Rattle.token.specs.RunInTurn.{point_of};
    ghost use Rattle.token.specs.Serial.{StandsAfter};
    ghost use Rattle.token.specs.Setup.{setup_of};
    ghost use Rattle.schedule_core.specs.Faults.{IsAnswerTo};
    ghost use Rattle.schedule_core.specs.Histories.{IsTheHistory, IsOutcome};
    ghost use Rattle.schedule_core.specs.Jobs.{jobs_of};
    ghost use Rattle.schedule_core.specs.Scene.{Same, counts_of, point_at, private_of, start_in, tally_of};
    ghost use Rattle.schedule_core.specs.Tally.{HappenInTurn, Happens, IsRefusedAt, refusal_of};

    /// A run of a program with this input, in which each thread may execute `bound` instructions and a segment
    /// ends after `quantum` instructions at the latest, for so many workers. Nothing has happened: no turn is
    /// done, and the first phase is open.
    pub fn open(
        alloc: Global,
        image: &Image,
        input: &[u8],
        bound: u64,
        quantum: Option<u64>,
        shuffle: Option<Shuffle>,
        workers: u32,
    ) -> Result<Self, AllocError>
        requires bound { bound ≤ limit.instructions }
        requires some { 0 < bound }
        requires quantum { IfSome quantum (λ quantum. quantum ≤ limit.instructions) }
        requires some_quantum { IfSome quantum (λ quantum. 0 < quantum) }
        requires few { workers ≤ limit.workers }
        requires some_workers { 0 < workers }
        ensures setup { IfOk result (λ world. (point_at world).setup ≡ setup_of image.now input.now bound quantum shuffle) }
        ensures done { IfOk result (λ world. (point_at world).done ≡ 0) }
        ensures tally { IfOk result (λ world.
            tally_of world ≡ record { turns = 0; counts = opened (length (jobs_of (start_in world))) workers; keeper = begun }) }
    {
        let start = Start::open(alloc, image, input, bound, quantum, shuffle)?;
        World::of_start(alloc, start, workers)
    }

    /// A run of which no turn is done, for so many workers. Nothing has happened, and the first phase is open.
    pub fn of_start(alloc: Global, start: Start, workers: u32) -> Result<Self, AllocError>
        requires few { workers ≤ limit.workers }
        requires some_workers { 0 < workers }
        ensures point { IfOk result (λ world. point_at world ≡ point_of start) }
        ensures stands { IfOk result (λ world. StandsAfter (point_at world) []) }
        ensures done { IfOk result (λ world. (point_at world).done ≡ 0) }
        ensures tally { IfOk result (λ world.
            tally_of world ≡ record { turns = 0; counts = opened (length (jobs_of (start_in world))) workers; keeper = begun }) }
    {
        let serial = start.recorded_by(Kept::new(alloc));
        let outcome = outcome_of(&serial);
        let mut seats = Vec::new(alloc);
        seats.reserve(workers as usize)?;
        add_idle(&mut seats, workers as usize);
        let mut slots = Vec::new(alloc);
        slots.reserve(CAPACITY)?;
        let mut scene = Scene {
            serial,
            drawn: 0,
            least: 0,
            seats,
            slots,
            keeper: None,
            outcome,
        };
        scene.open_phase();
        Ok(World { scene })
    }

    /// Makes an event happen. The run's end is looked at first, then whether the worker is there, then whether
    /// the event is enabled. A refused event changes nothing, nor does one for which memory runs out.
    pub fn apply(&mut self, event: Event) -> Result<(), EventFault>
        ensures refused { IsAnswerTo (refusal_of (point_at self.old) (tally_of self.old) event) result }
        ensures happens { OnOk result (Happens (point_at self.old) (tally_of self.old) event (point_at self.new) (tally_of self.new)) }
        ensures unchanged { OnErr result (Same self.old self.new) }
    {
        self.scene.apply(event)
    }

    /// Makes events happen in turn, up to the first that is refused. Those before it have happened.
    ///
    /// # Errors
    ///
    /// The first event that is refused, or for which memory runs out: its place and its fault.
    pub fn apply_all(&mut self, events: &[Event]) -> Result<(), RefusedEvent>
        ensures all { OnOk result
            (HappenInTurn (point_at self.old) (tally_of self.old) events.now (point_at self.new) (tally_of self.new)) }
        ensures refused { IfErr result (λ refused.
            IsRefusedAt (point_at self.old) (tally_of self.old) events.now refused.place refused.fault
            (point_at self.new) (tally_of self.new)) }
    {
        for (place, event) in events.iter().enumerate() {
            if let Err(fault) = self.apply(*event) {
                return Err(RefusedEvent { place, fault });
            }
        }
        Ok(())
    }

    /// The turns that were done, the first one first. They are those of a legal history, and of it and each
    /// legal history of the same run one is a prefix of the other.
    pub fn turns(&self) -> &[Turn]
        ensures { (history : History) × IsTheHistory (point_at self.now) history × (turns_of history ≡ result.now) }
    {
        one_history();
        self.scene.serial.turns()
    }

    /// How the run ended, none while a turn may follow.
    pub fn outcome(&self) -> Option<RunOutcome>
        ensures ended { result ≡ (point_at self.now).ended }
        ensures outcome { IsOutcome (point_at self.now) result }
    {
        one_history();
        match self.scene.serial.need() {
            Need::Ended(outcome) => Some(outcome),
            _ => None,
        }
    }

    /// The present shared memory: that of the history's last version.
    pub fn now(&self) -> &Snapshot
        ensures memory { cells_of result.now ≡ (point_at self.now).state.memory }
        ensures history { (history : History) × IsTheHistory (point_at self.now) history }
    {
        let _turns = self.turns();
        self.scene.serial.now()
    }

    /// The hart and the memory of a worker's job, none where it has no job: they are as many times the next
    /// instruction from the job's start on the phase's first memory as the job has made steps, whatever turns
    /// were done since.
    pub fn private(&self, worker: u32) -> Option<(&Hart, &View)>
        ensures { option_map (λ lent. (lent.0.now, views.cells_of lent.1.now)) result
            ≡ private_of (start_in self.now) (slice_get (counts_of self.now).workers worker) }
    {
        match self.scene.seats.get(worker as usize) {
            Some(Seat::Working(held)) => Some((&held.underway.hart, &held.underway.view)),
            _ => None,
        }
    }
}
