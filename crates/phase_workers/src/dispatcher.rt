//! The caller's side of its host threads: phases are shared out, and their ends come back. May wait for a worker.
ghost use Rattle.std.specs.Prelude.{◌≡◌, All, IfSome};
ghost use Rattle.phase_workers.specs.Hands.{Has};

use crate::caller_channels::CallerChannels;
use crate::dispatched_phase::DispatchedPhase;
use crate::end_facts::EndFacts;
use crate::hand::Hand;
use crate::shared_phase::SharedPhase;
use crate::worker_channels::WorkerChannels;
use claim_table::DrawSeat;
use phase_jobs::Gate;
use segment::SegmentEnd;
use std::alloc::{AllocError, Global};
use std::marker::Model;
use std::sync::Wait;

/// The caller's side of its host threads: it shares phases out, one after the other, and is given the ends of their jobs,
/// whichever host thread executed them.
#[derive(Drop)]
pub struct Dispatcher<F: EndFacts> {
    channels: Option<CallerChannels<F>>,
    dispatched: Option<DispatchedPhase<F>>,
}

impl<F: EndFacts> Model for Dispatcher<F> {
    ghost use Rattle.std.specs.Prelude.{is_some};
    ghost use Rattle.std.specs.Option.{option_map};
    ghost use Rattle.phase_workers.specs.Sharing.{DispatcherState};

    ghost Value = { DispatcherState };

    ghost view = { λ d. record { has_workers = is_some d.channels; shared = option_map (λ dispatched. dispatched.shared) d.dispatched } };
}

impl<F: EndFacts + Send + Sync> Dispatcher<F> {
    ghost use Rattle.std.specs.Prelude.{None, true, false, OnOk, OnErr, is_some};
    ghost use Rattle.phase_workers.specs.Sharing.{shared_by};

    /// The caller alone.
    pub fn new() -> Self
        ensures { result ≡ record { has_workers = false; shared = None } }
    {
        Dispatcher {
            channels: None,
            dispatched: None,
        }
    }

    /// What the caller's workers share. Each works once somebody lets it serve.
    pub fn hire(&mut self, alloc: Global) -> Result<WorkerChannels<F>, AllocError>
        ensures hired { OnOk result (self.new ≡ record self.old { has_workers = true }) }
        ensures refused { OnErr result (self.new ≡ self.old) }
    {
        let (channels, worker_channels) = CallerChannels::new(alloc)?;
        self.channels = Some(channels);
        Ok(worker_channels)
    }

    /// Whether a phase is shared out.
    pub fn is_shared_out(&self) -> bool
        ensures { result ≡ is_some self.now.shared }
    {
        self.dispatched.is_some()
    }

    /// Shares a phase out, in place of the one before: the caller has this hand of it, and its workers are offered these
    /// seats. Without workers nothing is shared out.
    ///
    /// # Errors
    ///
    /// Out of memory. No phase is shared out then.
    pub fn share<R: Wait>(
        &mut self,
        rt: &R,
        alloc: Global,
        shared: SharedPhase<F>,
        hand: Hand,
        seats: Vec<DrawSeat>,
    ) -> Result<(), AllocError>
        requires hand { Has shared.phase hand }
        requires seats { All (λ seat. seat.row ≡ shared.phase.row) seats.items }
        ensures shared { OnOk result (self.new ≡ record self.old { shared = shared_by self.old.has_workers shared }) }
        ensures refused { OnErr result (self.new ≡ record self.old { shared = None }) }
    {
        self.dispatched = None;
        if let Some(channels) = &self.channels {
            self.dispatched = Some(DispatchedPhase::open(
                rt, alloc, channels, shared, hand, seats,
            )?);
        }
        Ok(())
    }

    /// No phase is shared out any more.
    pub fn clear(&mut self)
        ensures { self.new ≡ record self.old { shared = None } }
    {
        if self.dispatched.is_some() {
            self.dispatched = None;
        }
    }

    /// Tells the workers that nothing more is wanted of them.
    pub fn dismiss(&mut self)
        ensures { self.new ≡ record { has_workers = false; shared = None } }
    {
        if let Some(channels) = &self.channels {
            channels.signals.stop_flag.set();
        }
        self.channels = None;
        self.dispatched = None;
    }

    /// The end of the job of this name in a phase, once it is there. The caller works at jobs of its own until then. None
    /// if it doesn't come.
    pub fn awaited<R: Wait, G: Gate>(
        &mut self,
        rt: &R,
        gate: &G,
        phase: u64,
        name: u32,
    ) -> Option<SegmentEnd>
        ensures end { IfSome result (F.is_end_of phase name) }
        ensures same { self.new ≡ self.old }
    {
        let channels = self.channels.as_ref()?;
        let Some(dispatched) = &mut self.dispatched else {
            return None;
        };
        dispatched
            .await_post(rt, channels, gate, phase, name)?
            .into_end()
    }
}
