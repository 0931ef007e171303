//! What is explored.
use command_requests::NumberRange;
use runtime::Config;

/// An exploration that is asked for.
#[derive(Clone, Copy)]
pub(crate) struct Exploration<'a> {
    /// The program's file.
    pub(crate) file: &'a str,
    /// The file of the guest's input, which is standard input if there is none.
    pub(crate) input: Option<&'a str>,
    /// The configuration of each run, but for its schedule's number and its workers.
    pub(crate) config: Config,
    /// The numbers of the schedules.
    pub(crate) range: NumberRange,
    /// Whether a second outcome or output is a failure, too.
    pub(crate) same: bool,
}
