//! A thread of a core file.
use hart::Hart;

/// A thread as a core file shows it.
#[derive(Clone, Copy, Debug, PartialEq, Eq)]
pub struct CoreThread {
    /// Its number there, from 1.
    pub pid: u32,
    /// The number of the signal that ended the run, and 0 if none did.
    pub signal: u16,
    /// Its registers and pc.
    pub hart: Hart,
}
