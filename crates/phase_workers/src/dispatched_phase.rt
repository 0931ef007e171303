//! What the caller has of a phase that is shared out: its hand, and the messages that it received. May wait for one.
ghost use Rattle.std.specs.Prelude.{◌≡◌, IfSome, All};
ghost use Rattle.std.specs.Arc.{arc_value};
ghost use Rattle.phase_workers.specs.Hands.{Has};

use crate::caller_channels::CallerChannels;
use crate::end_facts::EndFacts;
use crate::hand::Hand;
use crate::post::Post;
use crate::shared_phase::SharedPhase;
use crate::step_outcome::StepOutcome;
use claim_table::DrawSeat;
use phase_jobs::Gate;
use std::alloc::{AllocError, Global};
use std::marker::Model;
use std::sync::{Arc, Wait};

/// What the caller has of a phase that is shared out: its hand, and what it was told.
#[derive(Drop)]
pub(crate) struct DispatchedPhase<F: EndFacts> {
    shared: Arc<SharedPhase<F>>,
    hand: Hand,
    posts: Vec<Post<F>>,
    /// A message found no room, so not every end can be waited for.
    missed: bool,
}

impl<F: EndFacts> Model for DispatchedPhase<F> {
    ghost use Rattle.std.specs.Arc.{arc_value};
    ghost use Rattle.std.specs.Coded.{codes};
    ghost use Rattle.commit.specs.contracts.patch.Patch as patch;
    ghost use Rattle.phase_workers.specs.Hands.{Has};
    ghost use Rattle.phase_workers.specs.Sharing.{DispatchedState};

    ghost Value = { DispatchedState };

    ghost coded = { Prim.hlevel (codes, patch.the_row.coded) };

    ghost view = { λ b. record { shared = arc_value b.shared; hand = b.hand; posts = b.posts.items; missed = b.missed } };

    ghost invariant = { λ b. Has (arc_value b.shared).phase b.hand };
}

impl<F: EndFacts + Send + Sync> DispatchedPhase<F> {
    ghost use Rattle.std.specs.Prelude.{[], false, IfOk, IfNone};
    ghost use Rattle.phase_workers.specs.Sharing.{HasWaited, IsFiled, IsPostOf, KeepsPhase, StepsOn};

    /// Shares a phase out: the caller has this hand of it, and its workers are offered these seats.
    pub(crate) fn open<R: Wait>(
        rt: &R,
        alloc: Global,
        channels: &CallerChannels<F>,
        shared: SharedPhase<F>,
        hand: Hand,
        seats: Vec<DrawSeat>,
    ) -> Result<Self, AllocError>
        requires hand { Has shared.phase hand }
        requires seats { All (λ seat. seat.row ≡ shared.phase.row) seats.items }
        ensures { IfOk result (λ dispatched. dispatched ≡ record { shared = shared; hand = hand; posts = []; missed = false }) }
    {
        let posts = Vec::with_capacity(alloc, shared.names().len())?;
        let shared = Arc::new(alloc, shared)?;
        channels.offer_all(rt, &shared, seats);
        Ok(DispatchedPhase {
            shared,
            hand,
            posts,
            missed: false,
        })
    }

    /// Keeps a message.
    fn file(&mut self, post: Post<F>)
        ensures { IsFiled self.old self.new post }
    {
        if self.posts.push(post).is_err() {
            self.missed = true;
        }
    }

    /// Keeps all messages that have come.
    fn collect<R: Wait>(&mut self, rt: &R, channels: &CallerChannels<F>)
        ensures { KeepsPhase self.old self.new }
    {
        for _ in rt.forever() {
            let Ok(post) = channels.posts.try_recv(rt) else {
                return;
            };
            self.file(post);
        }
    }

    /// The message of a job in a phase, if it has come.
    fn take(&mut self, phase: u64, name: u32) -> Option<Post<F>>
        ensures some { IfSome result (IsPostOf phase name) }
        ensures shared { self.new.shared ≡ self.old.shared }
        ensures none { IfNone result ((self.new ≡ self.old) × All (λ post. IsPostOf phase name post → ⊥) self.old.posts) }
    {
        let place = self.posts.iter().position(|post| post.is_of(phase, name))?;
        let post = self.posts.swap_remove(place);
        if post.is_of(phase, name) {
            return Some(post);
        }
        None
    }

    /// Goes on with the caller's job, by a slice, or draws one and begins it. Whether there was one.
    fn step<G: Gate>(&mut self, gate: &G) -> bool
        ensures { StepsOn self.old self.new result }
    {
        let gate = self.shared.telling(gate);
        match self.hand.step(self.shared.jobs(), &gate) {
            StepOutcome::NoneLeft => return false,
            StepOutcome::GoesOn => {}
            StepOutcome::Over { number, told } => {
                let post = self.shared.post(number, told);
                self.file(post);
            }
        }
        true
    }

    /// Waits for a message. Whether one came.
    fn wait<R: Wait>(&mut self, rt: &R, channels: &CallerChannels<F>) -> bool
        ensures { HasWaited self.old self.new result }
    {
        if self.missed {
            return false;
        }
        match channels.next_post(rt) {
            Some(post) => {
                self.file(post);
                true
            }
            None => false,
        }
    }

    /// The message of a job in a phase. The caller works at jobs of its own until it has come. None if it won't come.
    pub(crate) fn await_post<R: Wait, G: Gate>(
        &mut self,
        rt: &R,
        channels: &CallerChannels<F>,
        gate: &G,
        phase: u64,
        name: u32,
    ) -> Option<Post<F>>
        ensures post { IfSome result (IsPostOf phase name) }
        ensures shared { self.new.shared ≡ self.old.shared }
    {
        for _ in rt.forever() {
            self.collect(rt, channels);
            if let Some(post) = self.take(phase, name) {
                return Some(post);
            }
            if !self.step(gate) && !self.wait(rt, channels) {
                return None;
            }
        }
        unreachable!()
    }
}
