//! A thread's seat at the draws, and the log that it keeps in fixed arrays.
ghost use Rattle.std.specs.Prelude.{◌≡◌, ◌<◌, ◌++◌, ◌∷◌, [], true, false, IfOk, length};

use crate::job_set::{JOBS, JobSet};
use crate::seat_log::SeatLog;
use crate::seat_view::SeatView;
use arrayvec::ArrayVec;
use atomic_table::Seat;
use std::alloc::{AllocError, Global};
use std::marker::Model;

/// What a thread draws by. It is used with its own [`Draws`](crate::Draws) alone, and keeps what it did.
#[derive(Drop)]
pub struct DrawSeat {
    pub(crate) seat: Seat<(), SeatView>,
    number: u32,
    pub(crate) drawn: ArrayVec<u32, JOBS>,
    pub(crate) noted: JobSet,
    pub(crate) seen: JobSet,
    pub(crate) ended: bool,
}

impl Model for DrawSeat {
    ghost use Rattle.claim_table.specs.Seat.{SeatState, IsSeat};

    ghost Value = { SeatState };

    ghost view = { λ s. record { row = record { table = s.seat.table_id; size = s.seat.me.0.size }; number = s.number; log = s.seat.me.0.log } };

    ghost invariant = { λ s. IsSeat s.seat.me s.number s.drawn.items s.noted.marks s.seen.marks s.ended };
}

impl DrawSeat {
    ghost use Rattle.claim_table.specs.Logs.{NotesDrawn, new_log};
    ghost use Rattle.claim_table.specs.Seat.{done};

    /// A seat that has done nothing.
    #[tactic(auto)]
    pub(crate) fn new(seat: Seat<(), SeatView>, number: u32) -> Self
        requires { (seat.me.1 ≡ []) × (seat.me.0.log ≡ new_log 1) × (number < seat.me.0.size.seats) }
        ensures { result ≡ record { row = record { table = seat.table_id; size = seat.me.0.size }; number = number; log = new_log 1 } }
    {
        DrawSeat {
            seat,
            number,
            drawn: ArrayVec::new(),
            noted: JobSet::new(),
            seen: JobSet::new(),
            ended: false,
        }
    }

    /// Its number among the seats of its draws, from 0.
    pub fn number(&self) -> u32
        ensures number { result ≡ self.now.number }
        ensures below { result < self.now.row.size.seats }
    {
        self.number
    }

    /// What it did until now.
    pub(crate) fn log(&self, alloc: Global) -> Result<SeatLog, AllocError>
        ensures log { IfOk result (λ log. log ≡ done self.now.log) }
        ensures numbered { self.now.number < self.now.row.size.seats }
        ensures notes { NotesDrawn self.now.log }
    {
        let mut drawn = Vec::with_capacity(alloc, self.drawn.len())?;
        drawn.extend_from_slice(self.drawn.as_slice())?;
        let noted = self.noted.numbers(alloc)?;
        let seen = self.seen.numbers(alloc)?;
        Ok(SeatLog::new(drawn, noted, seen, self.ended))
    }

    /// The seat on the row, for the last time.
    pub(crate) fn into_seat(self) -> Seat<(), SeatView>
        ensures { (result.table_id ≡ self.row.table) × (result.me.0.size ≡ self.row.size)
            × (result.me.0.log ≡ self.log) × (result.me.0.log.seats ≡ 1) × (result.me.1 ≡ []) }
    {
        let DrawSeat {
            seat,
            number: _,
            drawn: _,
            noted: _,
            seen: _,
            ended: _,
        } = self;
        seat
    }
}
