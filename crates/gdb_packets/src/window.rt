//! A part of a text or of the memory.
use crate::numbers::two_numbers;

/// A part of a text or of the memory: its first place and how long it is at most.
#[derive(Clone, Copy, Debug, PartialEq, Eq)]
pub struct Window {
    /// Where it begins.
    pub start: u64,
    /// How long it is.
    pub length: u64,
}

impl Window {
    ghost use Rattle.std.specs.Prelude.{MatchOption};
    ghost use Rattle.gdb_packets.specs.Requests.{IsWindow};

    /// The window of a text `START,LENGTH`.
    pub fn of_text(text: &[u8]) -> Option<Window>
        ensures { MatchOption result ((window : Window) → ¬ IsWindow text.now window) (IsWindow text.now) }
    {
        let (start, length) = two_numbers(text)?;
        Some(Window { start, length })
    }
}
