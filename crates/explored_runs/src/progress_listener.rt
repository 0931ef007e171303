//! The trait by which a host program is told how far an exploration is.

use crate::ending::Ending;

/// What is told of each run that ended. No answer depends on it, as long as its calls return.
pub trait ProgressListener {
    /// Called after each run, by the host thread that made it.
    fn ran(&self, ending: &Ending);
}
