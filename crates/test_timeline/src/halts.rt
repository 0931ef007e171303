//! Breakpoints, watches and arrivals, forward and back, against a plain scan of all positions.
use crate::rows::{Limits, WORD, timeline_of};
use crate::scan::{Seen, scan};
use anyhow::Result;
use data_guest_programs::{CODE, Program};
use std::alloc::{AllocError, Global};
use timeline::{Arrival, Halt, Spacing, Stops, Timeline, Watch, WatchKind};

/// A run in which a thread may execute some hundred instructions.
const FEW: Limits = Limits {
    bound: 300,
    quantum: None,
};

/// How many checkpoints there are at most.
const CHECKPOINTS: [u32; 2] = [1, 5];

/// Of how many instructions, each second one, an address is a breakpoint.
const BREAKPOINTS: u32 = 12;

/// The thread whose instructions are waited for.
const THREAD: u32 = 1;

/// Where a timeline halts.
#[derive(Clone, Copy, Debug)]
enum Place {
    /// Before the instruction at an address.
    At(u32),
    /// Beside a store to the word.
    Store,
    /// At an instruction of the thread.
    Arrival,
}

/// What of a program's halts isn't as wanted.
pub fn wrong_halt(alloc: Global, program: &Program) -> Result<Option<String>> {
    for most in CHECKPOINTS {
        if let Some((place, step)) = wrong_place(alloc, program, most)? {
            return Ok(Some(format!(in alloc;
                "{place:?} at step {step} with checkpoints: {most}"
            )?));
        }
    }
    Ok(None)
}

/// The first place of which a halt lacks or is one too many, and the step that a timeline with so many checkpoints is then at.
fn wrong_place(alloc: Global, program: &Program, most: u32) -> Result<Option<(Place, u64)>> {
    let mut scanned = Scanned::open(alloc, program, most)?;
    match scanned.wrong_place()? {
        Some(place) => Ok(Some((place, scanned.timeline.step_number()))),
        None => Ok(None),
    }
}

/// A timeline, and what a scan saw at each of its positions.
#[derive(Drop)]
struct Scanned {
    timeline: Timeline,
    seen: Vec<Seen>,
}

impl Scanned {
    /// The timeline of a program, at its end.
    fn open(alloc: Global, program: &Program, most: u32) -> Result<Self> {
        let spacing = Spacing { most, every: 19 };
        let mut timeline = timeline_of(alloc, program, &FEW, spacing)?;
        let seen = scan(alloc, &mut timeline)?;
        Ok(Scanned { timeline, seen })
    }

    /// Goes to all places. Answers the first of which a halt lacks or is one too many.
    fn wrong_place(&mut self) -> Result<Option<Place>, AllocError> {
        for number in 0..BREAKPOINTS {
            let address = CODE + 8 * number;
            if !self.breaks(address)? {
                return Ok(Some(Place::At(address)));
            }
        }
        if !self.is_watched()? {
            return Ok(Some(Place::Store));
        }
        Ok(if self.arrives()? {
            None
        } else {
            Some(Place::Arrival)
        })
    }

    /// Halts at a breakpoint, forward and back.
    fn breaks(&mut self, address: u32) -> Result<bool, AllocError> {
        let addresses = [address];
        let stops = Stops {
            breakpoints: &addresses,
            ..Stops::none()
        };
        let place = Place::At(address);
        Ok(
            self.halts_forward(&stops, place, Halt::Breakpoint)?
                && self.halts_back(&stops, place, Halt::Breakpoint)?
                && self.timeline.step_number() == 0,
        )
    }

    /// Halts at the stores to the word, forward and back.
    fn is_watched(&mut self) -> Result<bool, AllocError> {
        let watches = [Watch {
            start: WORD,
            len: 4,
            kind: WatchKind::Store,
        }];
        let stops = Stops {
            watches: &watches,
            ..Stops::none()
        };
        Ok(
            self.halts_forward(&stops, Place::Store, Halt::Watched(0))?
                && self.forward(&stops)? == Halt::End
                && self.halts_back(&stops, Place::Store, Halt::Watched(0))?,
        )
    }

    /// Halts at the instructions of one thread, back from the end.
    fn arrives(&mut self) -> Result<bool, AllocError> {
        let stops = Stops {
            arrival: Some(Arrival {
                thread: THREAD,
                start: 0,
                end: 0,
            }),
            ..Stops::none()
        };
        self.halts_back(&stops, Place::Arrival, Halt::Arrived)
    }

    /// Goes from the start on. Whether it halts at each place.
    fn halts_forward(
        &mut self,
        stops: &Stops<'_>,
        place: Place,
        halt: Halt,
    ) -> Result<bool, AllocError> {
        let _start = self.timeline.seek(0, 1)?;
        for step in 0..self.seen.len() {
            if self.is_at(place, step) && !self.halts_before(stops, halt, step as u64)? {
                return Ok(false);
            }
        }
        Ok(true)
    }

    /// Whether the next halt is at this step, which is then made.
    fn halts_before(
        &mut self,
        stops: &Stops<'_>,
        halt: Halt,
        step: u64,
    ) -> Result<bool, AllocError> {
        let is_halt = self.forward(stops)? == halt && self.timeline.step_number() == step;
        let _moved = is_halt && self.timeline.step()?;
        Ok(is_halt)
    }

    /// Goes back from the end. Whether it halts at each place before it, and then at the start.
    fn halts_back(
        &mut self,
        stops: &Stops<'_>,
        place: Place,
        halt: Halt,
    ) -> Result<bool, AllocError> {
        let _end = self.forward(&Stops::none())?;
        let end = (self.timeline.step_number() as usize).min(self.seen.len());
        for step in (0..end).rev() {
            if self.is_at(place, step) && !self.halts_after(stops, halt, step as u64)? {
                return Ok(false);
            }
        }
        Ok(self.back(stops)? == Halt::Start)
    }

    /// Whether the next halt back is at this step, or, by a watch, after it. The timeline is then at the step.
    fn halts_after(
        &mut self,
        stops: &Stops<'_>,
        halt: Halt,
        step: u64,
    ) -> Result<bool, AllocError> {
        let is_halt = self.back(stops)? == halt;
        if halt != Halt::Watched(0) {
            return Ok(is_halt && self.timeline.step_number() == step);
        }
        let is_after = self.timeline.step_number() == step.saturating_add(1);
        Ok(is_halt && is_after && self.timeline.seek(step, 1)?)
    }

    /// Goes forward to a halt, through so few steps at a time. Watch events of calls are passed over.
    fn forward(&mut self, stops: &Stops<'_>) -> Result<Halt, AllocError> {
        for _ in 0..1_000_000 {
            let halt = self.timeline.forward(stops, 23)?;
            if halt == Halt::Watched(0) && self.is_call(self.timeline.step_number()) {
                let _moved = self.timeline.step()?;
            } else if halt != Halt::GoesOn {
                return Ok(halt);
            }
        }
        Ok(Halt::GoesOn)
    }

    /// Goes back to a halt, through one interval at a time. Watch events of calls are passed over.
    fn back(&mut self, stops: &Stops<'_>) -> Result<Halt, AllocError> {
        for _ in 0..1_000_000 {
            let halt = self.timeline.back(stops)?;
            let step = self.timeline.step_number().saturating_sub(1);
            if halt == Halt::Watched(0) && self.is_call(step) {
                let _before = self.timeline.seek(step, 1)?;
            } else if halt != Halt::GoesOn {
                return Ok(halt);
            }
        }
        Ok(Halt::GoesOn)
    }

    /// Whether it has to halt at a step.
    fn is_at(&self, place: Place, step: usize) -> bool {
        match (place, self.seen.get(step)) {
            (Place::At(address), Some(seen)) => seen.pc == Some(address),
            (Place::Store, Some(seen)) => seen.stores,
            (Place::Arrival, Some(seen)) => seen.thread == THREAD && seen.pc.is_some(),
            (_, None) => false,
        }
    }

    /// Whether a call comes next at a step.
    fn is_call(&self, step: u64) -> bool {
        match self.seen.get(step as usize) {
            Some(position) => position.is_call,
            None => false,
        }
    }
}
