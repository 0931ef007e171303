//! Each position of a program, reached in several ways.
use crate::rows::{Limits, MOST, Own, Row, WORD, own_of, rows_of, timeline_of, word_at};
use anyhow::Result;
use data_guest_programs::Program;
use std::alloc::{AllocError, Global};
use test_run_ways::Dice;
use timeline::{Spacing, Stops, Timeline};

/// A run in which a thread may execute a few thousand instructions.
const PLAIN: Limits = Limits {
    bound: MOST,
    quantum: None,
};

/// The same in short segments.
const SHORT: Limits = Limits {
    bound: MOST,
    quantum: Some(7),
};

/// How a program is run, and how many checkpoints there are at most.
const RUNS: [(Limits, u32); 4] = [(PLAIN, 1), (PLAIN, 2), (PLAIN, 5), (SHORT, 2)];

/// Farther than any program has steps.
const FAR: u64 = 1_000_000;

/// From how many steps a run is gone back one by one.
const MOST_BACK: u64 = 200;

/// How many leaps are made.
const LEAPS: u32 = 60;

/// How the positions of a run are reached.
#[derive(Clone, Copy, Debug)]
enum Way {
    Start,
    Forward,
    Leaps,
    Back,
    End,
}

/// The ways, in the order in which a timeline goes them.
const WAYS: [Way; 5] = [Way::Start, Way::Forward, Way::Leaps, Way::Back, Way::End];

/// What of a program's positions isn't as wanted.
pub fn wrong_position(alloc: Global, program: &Program) -> Result<Option<String>> {
    for (limits, most) in RUNS {
        if let Some((way, step)) = wrong_step(alloc, program, &limits, most)? {
            return Ok(Some(format!(in alloc;
                "{way:?} at step {step} of {limits:?} with checkpoints: {most}"
            )?));
        }
    }
    Ok(None)
}

/// The first way, and the step there, whose position isn't as its row.
fn wrong_step(
    alloc: Global,
    program: &Program,
    limits: &Limits,
    most: u32,
) -> Result<Option<(Way, u64)>> {
    let mut compared = Compared::open(alloc, program, limits, most)?;
    match compared.wrong_way()? {
        Some(way) => Ok(Some((way, compared.timeline.step_number()))),
        None => Ok(None),
    }
}

/// A timeline, and what stands in each of its positions.
#[derive(Drop)]
struct Compared {
    timeline: Timeline,
    rows: Vec<Row>,
}

impl Compared {
    /// The timeline of a program, at its start.
    fn open(alloc: Global, program: &Program, limits: &Limits, most: u32) -> Result<Self> {
        let rows = rows_of(alloc, program, limits)?;
        let spacing = Spacing { most, every: 17 };
        let timeline = timeline_of(alloc, program, limits, spacing)?;
        Ok(Compared { timeline, rows })
    }

    /// Goes all ways. Answers the first that comes to a position that isn't as its row.
    fn wrong_way(&mut self) -> Result<Option<Way>, AllocError> {
        for way in WAYS {
            if !self.goes(way)? {
                return Ok(Some(way));
            }
        }
        Ok(None)
    }

    /// Goes a way. Whether each position is as its row.
    fn goes(&mut self, way: Way) -> Result<bool, AllocError> {
        match way {
            Way::Start => Ok(self.is_so_at(0)),
            Way::Forward => self.goes_forward(),
            Way::Leaps => self.leaps(),
            Way::Back => self.goes_back(),
            Way::End => self.ends(),
        }
    }

    /// The last step.
    fn last(&self) -> u64 {
        (self.rows.len() as u64).saturating_sub(1)
    }

    /// Whether this is the present step, and the position is as its row.
    fn is_so_at(&self, step: u64) -> bool {
        let timeline = &self.timeline;
        match self.rows.get(step as usize) {
            Some(row) => timeline.step_number() == step && row_at(timeline, row) == *row,
            None => false,
        }
    }

    /// Goes to a step, through so many others at most. Whether it comes there, and the position is as its row.
    fn comes_to(&mut self, step: u64, most: u64) -> Result<bool, AllocError> {
        Ok(self.timeline.seek(step, most)? && self.is_so_at(step))
    }

    /// Goes by a step. Whether there is one, and the position is as its row.
    fn steps_to(&mut self, step: u64) -> Result<bool, AllocError> {
        Ok(self.timeline.step()? && self.is_so_at(step))
    }

    /// Goes step by step from the start to the end.
    fn goes_forward(&mut self) -> Result<bool, AllocError> {
        let last = self.last();
        for step in 0..last {
            if !self.steps_to(step + 1)? {
                return Ok(false);
            }
        }
        let goes_on = self.timeline.step()?;
        Ok(!goes_on && self.is_so_at(last) && self.timeline.outcome().is_some())
    }

    /// Goes to any steps.
    fn leaps(&mut self) -> Result<bool, AllocError> {
        let count = u32::try_from(self.rows.len()).unwrap_or(u32::MAX);
        let mut dice = Dice::new(7);
        for _ in 0..LEAPS {
            if !self.comes_to(u64::from(dice.below(count)), FAR)? {
                return Ok(false);
            }
        }
        Ok(true)
    }

    /// Goes back step by step to the start.
    fn goes_back(&mut self) -> Result<bool, AllocError> {
        let from = self.last().min(MOST_BACK);
        if !self.comes_to(from, FAR)? {
            return Ok(false);
        }
        for step in (0..from).rev() {
            if !self.comes_to(step, 1)? {
                return Ok(false);
            }
        }
        Ok(true)
    }

    /// Goes to the end at once.
    fn ends(&mut self) -> Result<bool, AllocError> {
        let _end = self.timeline.forward(&Stops::none(), FAR)?;
        Ok(self.is_so_at(self.last()))
    }
}

/// What stands at the present position.
fn row_at(timeline: &Timeline, row: &Row) -> Row {
    Row {
        done: timeline.serial().done() as usize,
        steps: timeline.steps_of_turn(),
        shared: word_at(timeline, 999, WORD),
        own: row.own.and_then(|_| own_at(timeline)),
    }
}

/// What stands in the thread of the present position.
fn own_at(timeline: &Timeline) -> Option<Own> {
    let thread = timeline.thread();
    let hart = timeline.hart(thread)?;
    Some(own_of(&hart, word_at(timeline, thread, WORD)))
}
