//! A run of which no turn is done, with the events of its schedule.
use schedule::Event;
use token::Start;

/// A run of which no turn is done, and the events that it is to go by.
#[derive(Drop)]
pub(crate) struct OpenedReplay {
    /// The run.
    pub(crate) start: Start,
    /// The events.
    pub(crate) events: Vec<Event>,
}
