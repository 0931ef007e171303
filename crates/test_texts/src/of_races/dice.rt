//! A generator of pseudo-random numbers from a seed.
/// Picks numbers by a seed: the same ones each time.
#[derive(Clone, Copy)]
pub struct Dice {
    state: u64,
}

impl Dice {
    /// Dice that begin with this seed.
    pub fn new(seed: u64) -> Self {
        Dice { state: seed }
    }

    /// A number from 0 to one below this one, or 0.
    pub fn below(&mut self, count: u8) -> u8 {
        self.state = self
            .state
            .wrapping_mul(6_364_136_223_846_793_005)
            .wrapping_add(1_442_695_040_888_963_407);
        ((self.state >> 33) % u64::from(count.max(1))) as u8
    }
}
