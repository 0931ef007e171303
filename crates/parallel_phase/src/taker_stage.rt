//! How far a taker of turns has come.
/// How far a taker of turns is.
#[derive(Clone, Copy, Debug, PartialEq, Eq)]
pub enum TakerStage {
    /// It hasn't begun.
    New,
    /// It took so many turns, and goes on.
    Going(u32),
    /// It took so many turns, and wants no more.
    Stopped(u32),
    /// A call of it failed.
    Failed,
}
