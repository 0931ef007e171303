//! The gate of a phase of which one job was told before it was shared out.
use phase_jobs::Gate;

/// A gate that isn't told of one job again.
#[derive(Drop)]
pub(crate) struct OnceTold<'a, G> {
    gate: &'a G,
    /// The number of the job that it was told of.
    told: Option<u32>,
}

impl<'a, G> OnceTold<'a, G> {
    /// A gate that was told of this job.
    pub(crate) fn new(gate: &'a G, told: Option<u32>) -> Self {
        OnceTold { gate, told }
    }
}

impl<'a, G: Gate> Gate for OnceTold<'a, G> {
    fn pass(&self, worker: u32, job: u32) {
        if self.told != Some(job) {
            self.gate.pass(worker, job);
        }
    }
}
