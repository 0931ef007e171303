//! The trace up to the present position, made again from the run's start.
use std::alloc::{AllocError, Global};
use timeline::{Timeline, moved};
use token::{Next, NoRecord, Serial, Turn, next_turn};
use tracer::write_line;

/// Says the lines of the trace up to here, from one turn to another.
pub(crate) fn say_trace(
    alloc: Global,
    said: &mut Vec<u8>,
    timeline: &Timeline,
    first: u64,
    last: u64,
) -> Result<(), AllocError> {
    let mut serial = timeline.beginning()?;
    for number in 1..=last.min(timeline.serial().done()) {
        let Some(turn) = take_turn(&mut serial)? else {
            return Ok(());
        };
        if first <= number {
            let mut text = format!(in alloc; "{number}: ")?;
            write_line(&mut text, &turn)?;
            said.extend_from_slice(text.as_bytes())?;
        }
    }
    Ok(())
}

/// Does the next turn of a run, none if there is none.
fn take_turn(serial: &mut Serial<NoRecord>) -> Result<Option<Turn>, AllocError> {
    let Next::Turn(end) = next_turn(serial)? else {
        return Ok(None);
    };
    Ok(Some(moved(serial.turn(end.as_ref()))?))
}
