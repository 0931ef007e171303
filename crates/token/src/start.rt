//! A run in which no turn is done.
#![tactic(auto, unfolding(crate::specs::RunInTurn::point_of))]

ghost use Rattle.std.specs.Prelude.{◌≡◌, ◌≤◌, ◌<◌, [], IfOk, IfSome};
ghost use Rattle.abi.specs.Limits as limit;

use crate::phase::Phase;
use crate::recorder::Recorder;
use crate::run_in_turn::RunInTurn;
use crate::serial::Serial;
use call_table::SharedState;
use elf32_reader::Image;
use paged_memory::Snapshot;
use shuffled_phases::{Shuffle, choices_at_start, fill_list, number_at_start};
use std::alloc::{AllocError, Global};
use std::marker::Model;
use thread_table::{ThreadNumbers, Threads};

/// A run of which no turn is done, and that has no recorder yet.
#[derive(Drop)]
pub struct Start {
    run: RunInTurn,
}

impl Model for Start {
    ghost use Rattle.token.specs.declared.run_in_turn.RunInTurn.{RunInTurn as Run};

    ghost Value = { Run };

    ghost use Rattle.token.specs.Serial.{IsStart};

    ghost view = { λ s. s.run };

    ghost invariant = { λ s. IsStart s.run };
}

impl Start {
    ghost use Rattle.token.specs.RunInTurn.{point_of};
    ghost use Rattle.token.specs.Setup.{setup_of};

    /// A run of a program with this input, in which each thread may execute `bound` instructions, and a
    /// segment ends after `quantum` instructions at the latest. A number may shuffle its phases.
    pub fn open(
        alloc: Global,
        image: &Image,
        input: &[u8],
        bound: u64,
        quantum: Option<u64>,
        shuffle: Option<Shuffle>,
    ) -> Result<Self, AllocError>
        requires bound { bound ≤ limit.instructions }
        requires some { 0 < bound }
        requires quantum { IfSome quantum (λ quantum. quantum ≤ limit.instructions) }
        requires some_quantum { IfSome quantum (λ quantum. 0 < quantum) }
        ensures setup { IfOk result (λ start. (point_of start).setup ≡ setup_of image.now input.now bound quantum shuffle) }
        ensures done { IfOk result (λ start. (point_of start).done ≡ 0) }
        ensures output { IfOk result (λ start. (point_of start).state.output ≡ []) }
    {
        let first = Snapshot::of_image(alloc, image)?;
        let input = Vec::from_slice(alloc, input)?;
        let entry = image.entry();
        let number = number_at_start(shuffle);
        let choices = choices_at_start(shuffle);
        let shared = SharedState::new(alloc, first.try_clone()?, entry, number, choices, input);
        let mut threads = Threads::new();
        threads.copy_from(shared.threads());
        let mut list = ThreadNumbers::new();
        fill_list(shuffle, 1, &threads, &mut list);
        let phase = Phase {
            number: 1,
            first: 0,
            base: None,
            threads,
            list,
            given: 0,
        };
        Ok(Start {
            run: RunInTurn {
                entry,
                first,
                bound,
                quantum,
                shuffle,
                phase,
                shared,
                keeper: None,
                outcome: None,
                done: 0,
                fresh_from: 0,
            },
        })
    }

    /// The run with this recorder, which has recorded no turn.
    pub fn recorded_by<R: Recorder>(self, recorder: R) -> Serial<R>
        requires { R.records recorder [] [] }
        ensures { result ≡ self }
    {
        Serial::from_start(self.run, recorder)
    }
}
