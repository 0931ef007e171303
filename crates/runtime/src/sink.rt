//! The trait of what takes a run's output.
ghost use Rattle.std.specs.Prelude.{◌≡◌, ℕ, ◌+◌, ◌-◌, ◌^◌, ◌<◌, List, Option, None, if◌then◌else◌, is_ok, length, IfOk};
ghost use Rattle.std.specs.Io.{WritesAtMost};
ghost use Rattle.std.specs.Io.KnownBytes.{WriteAppends};

use thiserror::Error;

/// A sink took none of the bytes that it was offered.
#[derive(Clone, Copy, Debug, PartialEq, Eq, Error)]
#[error("the sink failed")]
pub struct SinkFault;

/// What takes the output of a run.
pub trait Sink {
    /// The bytes that it took so far, where it tells them.
    ghost taken: { Self → Option (List ℕ) } = { λ _. None };

    /// How often it failed so far.
    ghost failed: { Self → ℕ };

    /// Takes a prefix of these bytes, at least one byte where there are any, and answers how many it took. Or
    /// fails: then it took nothing, and failed once more than before.
    fn put(&mut self, bytes: &[u8]) -> Result<usize, SinkFault>
        requires { failed self.old < 2 ^ 64 - 1 }
        ensures within { WritesAtMost result bytes.now }
        ensures some { IfOk result (λ count. 0 < length bytes.now → 0 < count) }
        ensures bytes { WriteAppends (taken self.old) (taken self.new) result bytes.now }
        ensures failures { failed self.new ≡ (if is_ok result then failed self.old else failed self.old + 1) };

    /// How often it failed so far.
    fn failures(&self) -> u64
        ensures { result ≡ failed self.now };
}
