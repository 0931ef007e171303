//! How many library regions each thread is in, counted plainly from the events before.
use crate::of_races::told::Told;

/// Whether a thread is in a library region after these events.
pub fn is_inside(history: &[Told], thread: u8) -> bool {
    let mut depth: u64 = 0;
    for told in history {
        match *told {
            Told::Enter(other) if other == thread => depth = depth.saturating_add(1),
            Told::Leave(other) if other == thread => depth = depth.saturating_sub(1),
            _ => {}
        }
    }
    depth > 0
}
