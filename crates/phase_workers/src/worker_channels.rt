//! What the workers of a caller share: each waits for an offer, draws jobs and tells what became of them.
ghost use Rattle.phase_workers.specs.Hands.{Has};

use crate::end_facts::EndFacts;
use crate::hand::Hand;
use crate::offer::Offer;
use crate::post::Post;
use crate::shared_phase::SharedPhase;
use crate::signals::Signals;
use crate::step_outcome::StepOutcome;
use crossbeam_channel::{Receiver, Sender};
use phase_jobs::Gate;
use std::sync::{Arc, Wait};

/// The workers' ends of the channels to their caller, which they share. They draw jobs of the phases that they are offered, and tell what became of each.
#[derive(Drop)]
pub struct WorkerChannels<F: EndFacts> {
    pub(crate) offers: Receiver<Offer<F>>,
    pub(crate) posts: Sender<Post<F>>,
    pub(crate) signals: Arc<Signals>,
}

impl<F: EndFacts + Send + Sync> WorkerChannels<F> {
    /// Works until the caller dismisses its workers, as one of them.
    pub fn serve<R: Wait, G: Gate>(&self, rt: &R, gate: &G) {
        for _ in rt.forever() {
            let Some(offer) = self.next_offer(rt) else {
                return;
            };
            self.work_off(rt, gate, offer);
        }
    }

    /// Waits for an offer. None if the workers are dismissed.
    fn next_offer<R: Wait>(&self, rt: &R) -> Option<Offer<F>> {
        match self
            .signals
            .look_for(rt, &self.signals.offers, &self.offers)
        {
            Some(offer) => Some(offer),
            None => self.offers.recv(rt).ok(),
        }
    }

    /// Works at the phase that is offered.
    fn work_off<R: Wait, G: Gate>(&self, rt: &R, gate: &G, offer: Offer<F>) {
        let (shared, seat) = offer.into_parts();
        let mut hand = Hand { seat, held: None };
        self.work_at(rt, gate, &shared, &mut hand);
    }

    /// Takes steps at a phase and tells what became of each job, until none is left or the workers are dismissed.
    fn work_at<R: Wait, G: Gate>(&self, rt: &R, gate: &G, shared: &SharedPhase<F>, hand: &mut Hand)
        requires { Has shared.now.phase hand.old }
    {
        let gate = shared.telling(gate);
        for _ in rt.forever() {
            if self.signals.stop_flag.is_set() {
                return;
            }
            match hand.step(shared.jobs(), &gate) {
                StepOutcome::NoneLeft => return,
                StepOutcome::GoesOn => {}
                StepOutcome::Over { number, told } => {
                    if self.posts.send(rt, shared.post(number, told)).is_err() {
                        return;
                    }
                    self.signals.posts.add();
                }
            }
        }
    }
}
