//! A generator of pseudo-random numbers from a seed.
use schedule::Event;

/// Picks events by a seed: the same ones each time.
#[derive(Clone, Copy, Debug)]
pub struct Dice {
    state: u64,
}

impl Dice {
    /// Dice that begin with this seed.
    pub fn new(seed: u64) -> Self {
        Dice { state: seed }
    }

    /// A number from 0 to one below this one, or 0.
    pub fn below(&mut self, count: u32) -> u32 {
        self.state = self
            .state
            .wrapping_mul(6_364_136_223_846_793_005)
            .wrapping_add(1_442_695_040_888_963_407);
        ((self.state >> 33) as u32) % count.max(1)
    }

    /// An event of one of so many workers, or one without a worker. It needn't be enabled.
    pub fn event(&mut self, workers: u32) -> Event {
        let worker = self.below(workers);
        match self.below(16) {
            0 | 1 => Event::Draw(worker),
            2 => Event::Note(worker),
            3 => Event::Skip(worker),
            4 | 5 => Event::Post(worker),
            6 | 7 => Event::Turn,
            8 | 9 => Event::Hold,
            _ => Event::Step(worker),
        }
    }
}
