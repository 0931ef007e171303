//! What a seat of the shared words knows: the size and its own log. Ghost data alone.
use crate::log::Log;
use crate::size::Size;

/// What a seat knows, of which proofs alone speak: no value of it is made.
pub struct SeatView {
    pub size: Size,
    pub log: Log,
}
