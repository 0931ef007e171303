//! The log of one seat after all seats are gathered.
ghost use Rattle.std.specs.Prelude.{◌≡◌};

use std::marker::Model;

/// What a seat did. Contracts see it as the lists and the mark.
#[derive(Drop)]
pub struct SeatLog {
    drawn: Vec<u32>,
    noted: Vec<u32>,
    seen: Vec<u32>,
    ended: bool,
}

impl Model for SeatLog {
    ghost use Rattle.claim_table.specs.Seat.{Done};

    ghost Value = { Done };

    ghost view = { λ log. record { drawn = log.drawn.items; noted = log.noted.items; seen = log.seen.items; ended = log.ended } };
}

impl SeatLog {
    pub(crate) fn new(drawn: Vec<u32>, noted: Vec<u32>, seen: Vec<u32>, ended: bool) -> Self
        ensures { result ≡ record { drawn = drawn.items; noted = noted.items; seen = seen.items; ended = ended } }
    {
        SeatLog {
            drawn,
            noted,
            seen,
            ended,
        }
    }

    /// The numbers that it drew, in their order.
    pub fn drawn(&self) -> &[u32]
        ensures { result.now ≡ self.now.drawn }
    {
        self.drawn.as_slice()
    }

    /// The numbers that it noted, ascending.
    pub fn noted(&self) -> &[u32]
        ensures { result.now ≡ self.now.noted }
    {
        self.noted.as_slice()
    }

    /// The numbers that were answered to it as the least noted, ascending.
    pub fn seen(&self) -> &[u32]
        ensures { result.now ≡ self.now.seen }
    {
        self.seen.as_slice()
    }

    /// Whether it drew when no number was left.
    pub fn has_ended(&self) -> bool
        ensures { result ≡ self.now.ended }
    {
        self.ended
    }
}
