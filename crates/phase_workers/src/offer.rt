//! The offer of a phase to a worker: the shared phase and a seat.
ghost use Rattle.std.specs.Prelude.{◌≡◌};
ghost use Rattle.std.specs.Arc.{arc_value};

use crate::end_facts::EndFacts;
use crate::shared_phase::SharedPhase;
use claim_table::DrawSeat;
use std::marker::Model;
use std::sync::Arc;

/// A phase of which jobs may be drawn by this seat.
#[derive(Drop)]
pub(crate) struct Offer<F: EndFacts> {
    shared: Arc<SharedPhase<F>>,
    seat: DrawSeat,
}

impl<F: EndFacts> Model for Offer<F> {
    ghost use Rattle.std.specs.Prelude.{◌≡◌};
    ghost use Rattle.std.specs.Arc.{arc_value};
    ghost use Rattle.phase_workers.specs.Sharing.{OfferState};

    ghost Value = { OfferState };

    ghost view = { λ o. record { shared = arc_value o.shared; seat = o.seat } };

    ghost invariant = { λ o. o.seat.row ≡ (arc_value o.shared).phase.row };
}

impl<F: EndFacts> Offer<F> {
    pub(crate) fn new(shared: Arc<SharedPhase<F>>, seat: DrawSeat) -> Self
        requires { seat.row ≡ (arc_value shared).phase.row }
        ensures { result ≡ record { shared = arc_value shared; seat = seat } }
    {
        Offer { shared, seat }
    }

    /// The phase and the seat.
    pub(crate) fn into_parts(self) -> (Arc<SharedPhase<F>>, DrawSeat)
        ensures parts { (arc_value result.0 ≡ self.shared) × (result.1 ≡ self.seat) }
        ensures row { result.1.row ≡ (arc_value result.0).phase.row }
    {
        let Offer { shared, seat } = self;
        (shared, seat)
    }
}
