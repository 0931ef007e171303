//! What became of a job as a host thread tells it, with the fact whose end it is.
ghost use Rattle.std.specs.Prelude.{◌≡◌, ◌↔◌, IsTrue};
ghost use Rattle.phase_workers.specs.Posts.{IsPost};

use crate::end_facts::EndFacts;
use crate::job_outcome::JobOutcome;
use segment::SegmentEnd;
use std::marker::{Model, PhantomData};

/// What a host thread tells of a job: the phase's number, the job's name there, and what became of it.
#[derive(Drop)]
pub(crate) struct Post<F: EndFacts> {
    phase: u64,
    name: u32,
    told: JobOutcome,
    of: PhantomData<F>,
}

impl<F: EndFacts> Model for Post<F> {
    ghost use Rattle.std.specs.Coded.{codes};
    ghost use Rattle.commit.specs.contracts.patch.Patch as patch;
    ghost use Rattle.phase_workers.specs.Posts.{PostState, IsPost};

    ghost Value = { PostState };

    ghost coded = { Prim.hlevel (codes, patch.the_row.coded) };

    ghost view = { λ p. record { phase = p.phase; name = p.name; told = p.told } };

    ghost invariant = { λ p. IsPost F.is_end_of p.phase p.name p.told };
}

impl<F: EndFacts> Post<F> {
    ghost use Rattle.std.specs.Prelude.{IfSome};
    ghost use Rattle.phase_workers.specs.Posts.{end_told};

    /// What became of the job of this name in a phase.
    pub(crate) fn new(phase: u64, name: u32, told: JobOutcome) -> Self
        requires { IsPost F.is_end_of phase name told }
        ensures { result ≡ record { phase = phase; name = name; told = told } }
    {
        Post {
            phase,
            name,
            told,
            of: PhantomData,
        }
    }

    /// Whether it is of the job of this name in this phase.
    pub(crate) fn is_of(&self, phase: u64, name: u32) -> bool
        ensures { IsTrue result ↔ (self.now.phase ≡ phase) × (self.now.name ≡ name) }
    {
        self.phase == phase && self.name == name
    }

    /// The end that is told.
    pub(crate) fn into_end(self) -> Option<SegmentEnd>
        ensures end { result ≡ end_told self.told }
        ensures is { IfSome result (F.is_end_of self.phase self.name) }
    {
        let Post {
            phase: _,
            name: _,
            told,
            of: _,
        } = self;
        match told {
            JobOutcome::Ended(end) => Some(end),
            JobOutcome::Skipped | JobOutcome::Refused => None,
        }
    }
}
