//! How many checkpoints are kept, and how far apart.
/// How many checkpoints are kept, and how far apart.
#[derive(Clone, Copy, Debug, PartialEq, Eq)]
pub struct Spacing {
    /// How many are kept at most, beside the one at the start.
    pub most: u32,
    /// After how many steps one is left.
    pub every: u64,
}

impl Spacing {
    /// 128 checkpoints, one each 4,194,304 steps.
    pub const USUAL: Spacing = Spacing {
        most: 128,
        every: 1 << 22,
    };
}
