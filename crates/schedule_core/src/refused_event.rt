//! The first refused event of a list: its place and its fault.
use crate::event_fault::EventFault;

/// The first event of a list that is refused.
#[derive(Clone, Copy, Debug, PartialEq, Eq)]
pub struct RefusedEvent {
    /// Its place in the list, from 0.
    pub place: usize,
    /// Why it is refused.
    pub fault: EventFault,
}
