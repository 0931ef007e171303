//! A generator of pseudo-random numbers from a seed.
/// Picks numbers by a seed: the same ones each time.
#[derive(Clone, Copy)]
pub struct Dice {
    state: u64,
}

impl Dice {
    /// Dice that begin with this seed, which isn't 0.
    pub fn new(seed: u64) -> Self {
        Dice { state: seed }
    }

    /// A number from 0 to one below this one, or 0.
    pub fn below(&mut self, count: u32) -> u32 {
        (self.next() % u64::from(count.max(1))) as u32
    }

    /// The same of a byte.
    pub fn byte_below(&mut self, count: u8) -> u8 {
        (self.next() % u64::from(count.max(1))) as u8
    }

    /// The next number (Marsaglia, Xorshift RNGs: shifts by 13, 7 and 17), without its lowest bits.
    fn next(&mut self) -> u64 {
        self.state ^= self.state << 13;
        self.state ^= self.state >> 7;
        self.state ^= self.state << 17;
        self.state >> 20
    }
}
