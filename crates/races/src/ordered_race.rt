//! A race found, with its place in the order of the races.
use crate::race::Race;

/// A race found.
#[derive(Clone, Copy)]
pub(crate) struct OrderedRace {
    /// The race.
    pub(crate) race: Race,
    /// Its second access's step.
    pub(crate) step: u64,
}
