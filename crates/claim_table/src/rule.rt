//! The rule of the two words: which steps a seat may take on them, and what holds between any two steps.
use crate::seat_view::SeatView;
use crate::size::Size;
use atomic_table::{Join, Play, Split, TableRule};

/// The rule of the row of two words.
pub struct Fair;

impl TableRule<(), SeatView, Size> for Fair {
    ghost use Rattle.claim_table.specs.Logs.{new_log};
    ghost use Rattle.claim_table.specs.Rule.{IsKept};

    ghost holds = { λ size state. IsKept size state };

    ghost first = { λ size. record { size = size; log = new_log size.seats } };
}

/// A draw.
pub struct Drawing;

impl Play<(), SeatView> for Drawing {
    ghost use Rattle.claim_table.specs.Plays.{IsDraw};

    ghost then = { λ step old found new. IsDraw old found new };
}

/// A note of the step's operand.
pub struct Noting;

impl Play<(), SeatView> for Noting {
    ghost use Rattle.claim_table.specs.Plays.{IsNote};

    ghost then = { λ step old found new. IsNote step.first old new };
}

/// A look at the least number noted.
pub struct Looking;

impl Play<(), SeatView> for Looking {
    ghost use Rattle.claim_table.specs.Plays.{IsLook};

    ghost then = { λ step old found new. IsLook old found new };
}

/// One seat is parted from those that haven't been given out.
pub struct Parting;

impl Split<SeatView> for Parting {
    ghost use Rattle.std.specs.Prelude.{◌-◌};
    ghost use Rattle.claim_table.specs.Logs.{new_log};

    ghost left = { λ view. record view { log = new_log (view.log.seats - 1) } };

    ghost right = { λ view. record view { log = new_log 1 } };
}

/// A seat's log goes over to another's.
pub struct Joining;

impl Join<SeatView> for Joining {
    ghost use Rattle.claim_table.specs.Logs.{both, new_log};
    ghost use Rattle.claim_table.specs.Seat.{spent};

    ghost both = { λ view other. record view { log = both view.log other.log } };

    ghost spent = { spent };
}
