//! A run that has ended, with its caller's recorder.
use crate::run_end::RunEnd;

/// What a run with a recorder came to.
#[derive(Drop)]
pub struct RecordedRun<K, E> {
    /// How the run ended, or why it didn't.
    pub result: Result<RunEnd, E>,
    /// The recorder, with all that it recorded of the run.
    pub recorder: K,
}
