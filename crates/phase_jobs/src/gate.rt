//! The trait by which a host program is told of a run: each job before its first instruction, and each turn after it.
/// What the workers of a run call between their jobs. No answer depends on it, as long as its calls return.
pub trait Gate {
    /// Called once for each job, by the worker that took it, before the job's first instruction. Workers and the jobs
    /// of a phase have numbers from 0. The turns of the thread that keeps the token are no jobs.
    ///
    /// If a phase isn't shared out at once (see `first_shared`), the caller takes its jobs, and is told so. If one of
    /// them turns out to be long, the phase is shared out and any worker may execute that job; the gate isn't told again.
    fn pass(&self, worker: u32, job: u32);

    /// Called after each turn, with the thread whose turn it was.
    fn turned(&self, _thread: u32) {}

    /// How many phases are shared out from the beginning of the run on, however short their jobs are. After them, and
    /// without any, a phase is shared out if a job was long of late. Asked once, before the first turn.
    fn first_shared(&self) -> u32 {
        u32::MAX
    }
}
