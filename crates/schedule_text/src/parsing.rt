//! Reads the text of a schedule, line by line.
ghost use Rattle.std.specs.Prelude.{◌≡◌, IfOk, IfErr};
ghost use Rattle.schedule_text.specs.Text.{IsFirstBadLine, IsText};
ghost use Rattle.schedule_text.specs.Faults.{IfNotAnEvent};

use crate::line::first_line;
use crate::parse_fault::ParseFault;
use schedule::Event;
use std::alloc::{AllocError, Global};

/// The events of a schedule: a line each, `draw N`, `step N`, `note N`, `skip N`, `post N`, `hold` or `turn`, ended by
/// a newline, the last too, where N is 0 to 63 in decimal digits without a leading zero. An empty text has none.
///
/// # Errors
///
/// `NotAnEvent` with the number of the first line that is no event, or out of memory.
pub fn parse(alloc: Global, text: &[u8]) -> Result<Vec<Event>, ParseFault>
    ensures events { IfOk result (λ events. IsText text.now events.items) }
    ensures fault { IfErr result (IfNotAnEvent (IsFirstBadLine text.now)) }
{
    let mut events = Vec::new(alloc);
    let mut rest = text;
    while let Some(line) = first_line(rest) {
        if let Err(refused) = events.push(line.event) {
            return Err(AllocError::from(refused).into());
        }
        rest = line.rest;
    }
    if rest.is_empty() {
        return Ok(events);
    }
    Err(ParseFault::NotAnEvent {
        line: events.len() as u64 + 1,
    })
}
