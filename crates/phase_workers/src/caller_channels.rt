//! The caller's ends of the channels to its workers: offers that it sends and takes back, messages that it receives.
ghost use Rattle.std.specs.Prelude.{◌≡◌, All};
ghost use Rattle.std.specs.Arc.{arc_value};

use crate::end_facts::EndFacts;
use crate::offer::Offer;
use crate::post::Post;
use crate::shared_phase::SharedPhase;
use crate::signals::Signals;
use crate::worker_channels::WorkerChannels;
use abi::limits::MAX_WORKERS;
use claim_table::{DrawSeat, JOBS};
use crossbeam_channel::{Receiver, Sender, bounded};
use std::alloc::{AllocError, Global};
use std::sync::{Arc, Wait};

/// The caller's ends of the channels to its workers.
#[derive(Drop)]
pub(crate) struct CallerChannels<F: EndFacts> {
    offers: Sender<Offer<F>>,
    /// The same offers, to take back those that nobody took.
    left: Receiver<Offer<F>>,
    pub(crate) posts: Receiver<Post<F>>,
    pub(crate) signals: Arc<Signals>,
}

/// How many offers there are at most.
const MOST_OFFERS: usize = MAX_WORKERS as usize;

impl<F: EndFacts + Send + Sync> CallerChannels<F> {
    /// The caller's ends, and the workers'.
    pub(crate) fn new(alloc: Global) -> Result<(Self, WorkerChannels<F>), AllocError> {
        let (offers, left) = bounded(alloc, MOST_OFFERS)?;
        let (posts, received) = bounded(alloc, JOBS)?;
        let signals = Arc::new(alloc, Signals::new())?;
        let worker_channels = WorkerChannels {
            offers: left.clone()?,
            posts,
            signals: Arc::try_clone(&signals)?,
        };
        let channels = CallerChannels {
            offers,
            left,
            posts: received,
            signals,
        };
        Ok((channels, worker_channels))
    }

    /// Takes back the offers that nobody took.
    fn take_back<R: Wait>(&self, rt: &R) {
        for _ in 0..MOST_OFFERS {
            if self.left.try_recv(rt).is_err() {
                return;
            }
        }
    }

    /// Offers a phase by a seat. Whether that could be done.
    fn offer<R: Wait>(&self, rt: &R, shared: &Arc<SharedPhase<F>>, seat: DrawSeat) -> bool
        requires { seat.row ≡ (arc_value shared.now).phase.row }
    {
        let Ok(theirs) = Arc::try_clone(shared) else {
            return false;
        };
        self.offers.try_send(rt, Offer::new(theirs, seat)).is_ok()
    }

    /// Offers a phase by these seats, in place of what nobody took.
    pub(crate) fn offer_all<R: Wait>(
        &self,
        rt: &R,
        shared: &Arc<SharedPhase<F>>,
        mut seats: Vec<DrawSeat>,
    )
        requires { All (λ seat. seat.row ≡ (arc_value shared.now).phase.row) seats.items }
    {
        self.take_back(rt);
        while let Some(seat) = seats.pop() {
            if !self.offer(rt, shared, seat) {
                return;
            }
            self.signals.offers.add();
        }
    }

    /// Waits for a message. None if no worker is left.
    pub(crate) fn next_post<R: Wait>(&self, rt: &R) -> Option<Post<F>> {
        match self.signals.look_for(rt, &self.signals.posts, &self.posts) {
            Some(post) => Some(post),
            None => self.posts.recv(rt).ok(),
        }
    }
}
