//! The addresses that a turn changed, ascending.
ghost use Rattle.std.specs.Prelude.{◌≡◌};

use std::marker::Model;

/// Which bytes a turn's thread changed.
#[derive(Debug, Drop)]
pub struct TurnChange {
    phase: u64,
    thread: u32,
    addresses: Vec<u32>,
}

impl Model for TurnChange {
    ghost use Rattle.token.specs.Change.{Change};

    ghost Value = { Change };

    ghost view = { λ c. record { phase = c.phase; thread = c.thread; addresses = c.addresses.items } };
}

impl TurnChange {
    /// The change of a turn.
    pub fn new(phase: u64, thread: u32, addresses: Vec<u32>) -> Self
        ensures { result ≡ record { phase = phase; thread = thread; addresses = addresses.items } }
    {
        TurnChange {
            phase,
            thread,
            addresses,
        }
    }

    /// The phase, from 1.
    pub fn phase(&self) -> u64
        ensures { result ≡ self.now.phase }
    {
        self.phase
    }

    /// The thread's number.
    pub fn thread(&self) -> u32
        ensures { result ≡ self.now.thread }
    {
        self.thread
    }

    /// The addresses at which the thread's memory differs from its copy, ascending. None at a wake.
    pub fn addresses(&self) -> &[u32]
        ensures { result.now ≡ self.now.addresses }
    {
        &self.addresses
    }
}
