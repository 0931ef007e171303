//! Draws by two seats, in one thread.
ghost use Rattle.std.specs.Prelude.{◌≡◌};

use crate::failures::digests::mixed;
use claim_table::{DrawSeat, Draws};
use std::alloc::Global;
use std::io;

/// Draws a number and notes it.
fn draw_and_note(draws: &Draws, seat: &mut DrawSeat) -> Option<u32>
    requires { seat.old.row ≡ draws.now }
    ensures { seat.new.row ≡ seat.old.row }
{
    let number = draws.draw(seat)?;
    draws.note(seat, number);
    Some(number)
}

/// Draws three numbers, notes one and looks at it, between two requests for memory.
pub fn print_draws<R: Print>(rt: &R, alloc: Global) -> io::Result<()> {
    let Ok((draws, mut seats)) = Draws::new(alloc, 3, 2) else {
        return println!(rt; "draws: out of memory");
    };
    print_request(rt, alloc, "before them")?;
    let answers = [
        draws.least(&mut seats[0]),
        draw_and_note(&draws, &mut seats[0]),
        draws.draw(&mut seats[1]),
        draws.least(&mut seats[1]),
        draws.draw(&mut seats[1]),
        draws.draw(&mut seats[0]),
    ];
    let digest = digest_of(&answers);
    println!(rt; "draws: {digest:016x}")?;
    print_request(rt, alloc, "after them")
}

/// A digest of numbers and of their absence.
fn digest_of(answers: &[Option<u32>]) -> u64 {
    let mut digest = 0;
    for answer in answers {
        digest = mixed(
            digest,
            match answer {
                Some(number) => u64::from(*number),
                None => u64::MAX,
            },
        );
    }
    digest
}

/// Asks for memory once, and prints whether it was given.
fn print_request<R: Print>(rt: &R, alloc: Global, place: &str) -> io::Result<()> {
    match Box::new(alloc, 0u64) {
        Ok(_) => println!(rt; "a request {place}: given"),
        Err(_) => println!(rt; "a request {place}: refused"),
    }
}
