//! Draws by two seats in one thread.

ghost use Rattle.std.specs.Prelude.{◌≡◌};

use crate::phases::shown::show;
use anyhow::Result;
use claim_table::{DrawSeat, Draws, SeatLog};
use std::alloc::{AllocError, Global};

/// Prints the rows of draws.
pub fn show_draws<R: Print>(rt: &R, alloc: Global) -> Result<()> {
    show(rt, "two seats take turns", two_seats_take_turns(alloc)?)?;
    show(rt, "no job ends each seat", no_job_ends_each_seat(alloc)?)
}

/// Whether a log tells these numbers, and that its seat has ended.
fn tells(log: &SeatLog, drawn: &[u32], noted: &[u32], seen: &[u32]) -> bool {
    log.drawn() == drawn && log.noted() == noted && log.seen() == seen && log.has_ended()
}

/// Draws a number and notes it.
fn draw_and_note(draws: &Draws, seat: &mut DrawSeat) -> Option<u32>
    requires { seat.old.row ≡ draws.now }
    ensures { seat.new.row ≡ seat.old.row }
{
    let number = draws.draw(seat)?;
    draws.note(seat, number);
    Some(number)
}

/// What two seats get from three jobs.
const DRAWN: [Option<u32>; 8] = [None, Some(0), Some(1), Some(0), Some(2), None, None, None];

fn two_seats_take_turns(alloc: Global) -> Result<bool, AllocError> {
    let (draws, mut seats) = Draws::new(alloc, 3, 2)?;
    let drawn = [
        draws.least(&mut seats[0]),
        draw_and_note(&draws, &mut seats[0]),
        draws.draw(&mut seats[1]),
        draws.least(&mut seats[1]),
        draws.draw(&mut seats[1]),
        draws.draw(&mut seats[0]),
        draws.draw(&mut seats[1]),
        draws.draw(&mut seats[1]),
    ];
    let numbers = [seats[0].number(), seats[1].number()];
    let logs = draws.gather(seats)?;
    Ok(
        drawn == DRAWN
            && numbers == [0, 1]
            && tells(&logs[0], &[0], &[0], &[])
            && tells(&logs[1], &[1, 2], &[], &[0]),
    )
}

fn no_job_ends_each_seat(alloc: Global) -> Result<bool, AllocError> {
    let (draws, mut seats) = Draws::new(alloc, 0, 1)?;
    let drawn = [draws.least(&mut seats[0]), draws.draw(&mut seats[0])];
    let logs = draws.gather(seats)?;
    Ok(drawn == [None, None] && tells(&logs[0], &[], &[], &[]))
}
