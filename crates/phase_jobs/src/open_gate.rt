//! The gate that holds nobody.
use crate::gate::Gate;

/// The gate that holds nobody. A phase is shared out only if a job was long of late.
#[derive(Clone, Copy, Debug, PartialEq, Eq)]
pub struct OpenGate;

impl Gate for OpenGate {
    /// Returns at once.
    fn pass(&self, _worker: u32, _job: u32) {}

    fn first_shared(&self) -> u32 {
        0
    }
}
