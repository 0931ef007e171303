//! The two shared words of a phase: draws are counted in one, the least noted number is kept in the other. Touches them by single atomic steps, and never waits.
ghost use Rattle.std.specs.Prelude.{◌≡◌, ℕ, ◌+◌, ◌<◌, ◌≤◌, [], ◌++◌, ◌∷◌, All, map, length, IfOk, OnOk, IfSome, IfNone, OnSome};
ghost use Rattle.std.specs.List.{range_with_len};
ghost use Rattle.claim_table.specs.Logs.{tally, IsSame, NotesDrawn};
ghost use Rattle.claim_table.specs.Seat.{done};

use crate::rule::{Drawing, Fair, Joining, Looking, Noting, Parting};
use crate::seat::DrawSeat;
use crate::seat_log::SeatLog;
use crate::seat_view::SeatView;
use crate::size::Size;
use atomic_table::{Seat, Shared, Table};
use std::alloc::{AllocError, Global};
use std::marker::Model;

/// The word that counts draws.
const DRAWN: usize = 0;

/// The word that is the least number noted.
const LEAST: usize = 1;

/// The numbers of some jobs, drawn each once by those who have seats. It lies in the frame of whoever joins the
/// threads, or in an `Arc`; they share it by reference.
#[derive(Drop)]
pub struct Draws {
    table: Table<(), SeatView, Size, Fair, Global>,
    size: Size,
    alloc: Global,
}

impl Model for Draws {
    ghost use Rattle.std.specs.Prelude.{◌≡◌, ◌<◌, ◌≤◌};
    ghost use Rattle.claim_table.specs.Logs.{most_jobs};
    ghost use Rattle.claim_table.specs.Seat.{Row};

    ghost Value = { Row };

    ghost view = { λ d. record { table = d.table.shared.table_id; size = d.size } };

    ghost invariant = { λ d. (d.table.shared.key ≡ d.size) × (d.table.shared.table_id.words ≡ 2) × (d.table.shared.table_id.slots ≡ 0) × (d.size.jobs ≤ most_jobs) × (0 < d.size.seats) };
}

impl Draws {
    ghost use Rattle.claim_table.specs.Logs.{NotesDrawn, most_jobs, most_seats, new_log, tally, times, with_noted};
    ghost use Rattle.claim_table.specs.Draws.{AreDraws, IsDrawnOut};
    ghost use Rattle.std.specs.Prelude.{◌≡◌, ℕ, ◌+◌, ◌<◌, ◌≤◌, [], ◌++◌, ◌∷◌, All, map, length, IfOk, OnOk, IfSome, IfNone, OnSome};
    ghost use Rattle.std.specs.List.{range_with_len};
    ghost use Rattle.claim_table.specs.Seat.{SeatState, done, drew, saw};

    /// As many seats as asked for, numbered from 0, none of which has done anything.
    pub fn new(alloc: Global, jobs: u32, seats: u32) -> Result<(Draws, Vec<DrawSeat>), AllocError>
        requires { (jobs ≤ most_jobs) × (0 < seats) × (seats ≤ most_seats) }
        ensures size { IfOk result (λ made. made.0.size ≡ record { jobs = jobs; seats = seats }) }
        ensures seats { IfOk result (λ made. made.1.items
            ≡ map (λ number. record { row = made.0; number = number; log = new_log 1 }) (range_with_len 0 seats)) }
    {
        let size = Size { jobs, seats };
        let (table, mut rest) = Table::of_words(alloc, &[0, u64::from(jobs)], &size)?;
        let mut made = Vec::with_capacity(alloc, seats as usize)?;
        for number in 0..seats {
            let seat = table.shared.split_seat::<Parting>(&mut rest);
            made.push(DrawSeat::new(seat, number))?;
        }
        Ok((Draws { table, size, alloc }, made))
    }

    /// Draws the next number. None where there is none left, now and whenever this seat draws again.
    #[tactic(auto, using(crate::proofs::Totals::drawn_here))]
    pub fn draw(&self, seat: &mut DrawSeat) -> Option<u32>
        requires { seat.old.row ≡ self.now }
        ensures log { seat.new ≡ record seat.old { log = drew seat.old.log result } }
        ensures below { IfSome result (λ number. (number < self.now.size.jobs) × (seat.old.log.ended ≡ 0)) }
        ensures drawn { IfSome result (λ number. 0 < times number seat.new.log.drawn) }
        ensures room { OnSome result (length seat.new.log.drawn ≤ self.now.size.jobs) }
    {
        if seat.ended {
            return None;
        }
        let found = self
            .table
            .shared
            .fetch_add::<Drawing>(&mut seat.seat, DRAWN, 1);
        if found >= u64::from(self.size.jobs) {
            seat.ended = true;
            return None;
        }
        let number = found as u32;
        seat.drawn.push(number);
        Some(number)
    }

    /// Notes a number that this seat drew.
    pub fn note(&self, seat: &mut DrawSeat, number: u32)
        requires row { seat.old.row ≡ self.now }
        requires drawn { 0 < times number seat.old.log.drawn }
        ensures { seat.new ≡ record seat.old { log = with_noted seat.old.log number } }
    {
        self.table
            .shared
            .fetch_min::<Noting>(&mut seat.seat, LEAST, u64::from(number));
        seat.noted.mark(number);
    }

    /// The least number that any seat has noted by now. None where none was noted.
    pub fn least(&self, seat: &mut DrawSeat) -> Option<u32>
        requires { seat.old.row ≡ self.now }
        ensures log { seat.new ≡ record seat.old { log = saw seat.old.log result } }
        ensures least { IfSome result (λ least. (number : ℕ)
            → 0 < times number seat.old.log.noted + times number seat.old.log.seen → least ≤ number) }
        ensures none { IfNone result ((seat.old.log.noted ≡ []) × (seat.old.log.seen ≡ [])) }
    {
        let found = self.table.shared.load::<Looking>(&mut seat.seat, LEAST);
        if found >= u64::from(self.size.jobs) {
            return None;
        }
        let least = found as u32;
        seat.seen.mark(least);
        Some(least)
    }

    /// What each seat did, in the order of the seats. They are gone where memory is refused.
    pub fn gather(self, seats: Vec<DrawSeat>) -> Result<Vec<SeatLog>, AllocError>
        requires all { length seats.items ≡ self.size.seats }
        requires row { All (λ seat. seat.row ≡ self) seats.items }
        ensures logs { IfOk result (λ logs. logs.items ≡ map (λ seat. done seat.log) seats.items) }
        ensures numbered { OnOk result (All (λ seat. seat.number < self.size.seats) seats.items) }
        ensures notes { OnOk result (All (λ seat. NotesDrawn seat.log) seats.items) }
        ensures draws { (word0 : ℕ) × (word1 : ℕ) × AreDraws self.size.jobs word0 word1 (tally (map (λ seat. seat.log) seats.items)) }
        ensures complete { IsDrawnOut self.size.jobs (tally (map (λ seat. seat.log) seats.items)) }
    {
        let Draws {
            table,
            size: _,
            alloc,
        } = self;
        let logs = logs_of(alloc, seats.as_slice());
        let whole = joined(&table.shared, seats);
        table.close_with(whole).free();
        logs
    }
}

/// The log of each seat.
fn logs_of(alloc: Global, seats: &[DrawSeat]) -> Result<Vec<SeatLog>, AllocError>
    ensures logs { IfOk result (λ logs. logs.items ≡ map (λ seat. done seat.log) seats.now) }
    ensures numbered { OnOk result (All (λ seat. seat.number < seat.row.size.seats) seats.now) }
    ensures notes { OnOk result (All (λ seat. NotesDrawn seat.log) seats.now) }
{
    let mut logs = Vec::with_capacity(alloc, seats.len())?;
    for seat in seats {
        logs.push(seat.log(alloc)?)?;
    }
    Ok(logs)
}

/// One seat whose log has all that some seats did.
fn joined(row: &Shared<(), SeatView, Size, Fair>, mut seats: Vec<DrawSeat>) -> Seat<(), SeatView>
    requires some { 0 < length seats.items }
    requires row { All (λ seat. seat.row.table ≡ row.now.table_id) seats.items }
    requires words { 0 < row.now.table_id.words }
    ensures row { (result.table_id ≡ row.now.table_id) × (result.me.1 ≡ []) }
    ensures seats { result.me.0.log.seats ≡ length seats.items }
    ensures same { IsSame (tally (result.me.0.log ∷ [])) (tally (map (λ seat. seat.log) seats.items)) }
{
    let Some(first) = seats.pop() else {
        unreachable!()
    };
    let mut whole = first.into_seat();
    while let Some(next) = seats.pop() {
        row.join_seat::<Joining>(&mut whole, next.into_seat());
    }
    whole
}
