//! The signals by which gdb shows stops.
ghost use Rattle.std.specs.Prelude.{◌≡◌};
ghost use Rattle.gdb_shown.specs.Signals.{signal_shown};

use hart::Cause;

/// The number of SIGTRAP: the usual stop.
pub const TRAP: u8 = 0x05;
/// The number of SIGINT: the user interrupted the run.
pub const INTERRUPT: u8 = 0x02;
/// The number of SIGWINCH, which gdb passes on and never stops for.
pub const WINDOW: u8 = 0x1c;
/// No signal.
pub const NONE: u8 = 0x00;

/// The signal that a trap of this cause is shown as.
pub fn signal_of(cause: Cause) -> u8
    ensures { result ≡ signal_shown cause }
{
    match cause {
        Cause::TargetMisaligned | Cause::LoadMisaligned | Cause::StoreMisaligned => 0x0a,
        Cause::FetchDenied | Cause::LoadDenied | Cause::StoreDenied => 0x0b,
        Cause::IllegalInstruction => 0x04,
        Cause::Breakpoint => 0x05,
        Cause::BoundReached => 0x18,
    }
}
