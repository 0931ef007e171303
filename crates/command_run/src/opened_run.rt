//! A run that was opened, with the names that its findings are told by.
use crate::explaining::Explaining;
use runtime::Start;
use symbols::Symbols;

/// A run of which no turn is done, and the symbols of its file if its findings are wanted.
#[derive(Drop)]
pub(crate) struct OpenedRun {
    /// The run.
    pub(crate) start: Start,
    /// The symbols of its file.
    pub(crate) symbols: Option<Symbols>,
    /// What its end is explained by, if that is wanted.
    pub(crate) explaining: Option<Explaining>,
}
