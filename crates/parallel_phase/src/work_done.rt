//! What a seat of a phase has done: its jobs and what became of each.
ghost use Rattle.std.specs.Prelude.{◌≡◌, [], false, IfOk, OnOk};
ghost use Rattle.claim_table.specs.Logs.{new_log};
ghost use Rattle.parallel_phase.specs.Outcomes.{IsWhole};

use crate::drawn::Drawn;
use claim_table::DrawSeat;
use std::alloc::{AllocError, Global};
use std::marker::Model;

/// What was done by a seat of a phase: the jobs that it drew, and what became of each. Where memory was refused, the
/// last job that it drew may be without an outcome.
#[derive(Drop)]
pub struct WorkDone {
    pub(crate) seat: DrawSeat,
    pub(crate) outcomes: Vec<Drawn>,
    pub(crate) refused: Option<AllocError>,
}

impl Model for WorkDone {
    ghost use Rattle.std.specs.Prelude.{◌≡◌, false, is_some};
    ghost use Rattle.std.specs.Coded.{codes};
    ghost use Rattle.commit.specs.contracts.patch.Patch as patch;
    ghost use Rattle.parallel_phase.specs.Work.{WorkState, AreOutcomes};

    ghost Value = { WorkState };

    ghost coded = { Prim.hlevel (codes, patch.the_row.coded) };

    ghost view = { λ w. record { seat = w.seat; outcomes = w.outcomes.items; refused = is_some w.refused } };

    ghost invariant = { λ w. is_some w.refused ≡ false → AreOutcomes w.seat.log w.outcomes.items };
}

impl WorkDone {
    /// No work yet, of a seat that has drawn nothing.
    pub(crate) fn new(alloc: Global, seat: DrawSeat) -> Self
        requires { seat.log ≡ new_log 1 }
        ensures { result ≡ record { seat = seat; outcomes = []; refused = false } }
    {
        WorkDone {
            seat,
            outcomes: Vec::new(alloc),
            refused: None,
        }
    }

    /// The seat, and what became of the jobs that it drew. Err where memory was refused.
    pub(crate) fn into_parts(self) -> Result<(DrawSeat, Vec<Drawn>), AllocError>
        ensures parts { IfOk result (λ parts. (parts.0 ≡ self.seat) × (parts.1.items ≡ self.outcomes)) }
        ensures whole { OnOk result (IsWhole self) }
    {
        let WorkDone {
            seat,
            outcomes,
            refused,
        } = self;
        match refused {
            Some(error) => Err(error),
            None => Ok((seat, outcomes)),
        }
    }

    /// Whether memory was refused.
    pub fn was_refused(&self) -> bool
        ensures { result ≡ self.now.refused }
    {
        self.refused.is_some()
    }

    /// The jobs that it drew, in order, and what became of each.
    pub fn outcomes(&self) -> &[Drawn]
        ensures { result.now ≡ self.now.outcomes }
    {
        self.outcomes.as_slice()
    }
}
