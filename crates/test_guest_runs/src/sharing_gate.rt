//! The gate of runs that share each phase out.
use runtime::Gate;

/// A gate that holds nobody. It says nothing of phases, so that each is shared out, however short its jobs are.
#[derive(Clone, Copy)]
pub struct SharingGate;

impl Gate for SharingGate {
    fn pass(&self, _worker: u32, _job: u32) {}
}
