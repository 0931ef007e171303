//! How a run ended, as a text.
use hart::Trap;
use std::fmt;
use std::fmt::{Formatter, Write};
use token::RunOutcome;

/// How a run ended, as it stands in a digest and on standard error: `exit 2`, `finished 0`, `deadlock`, or
/// `trap thread=1 pc=00010074 cause=5 value=00000000`. The cause is its number, pc and value are eight hexadecimal digits.
#[derive(Clone, Copy)]
pub struct OutcomeText(pub RunOutcome);

impl fmt::Display for OutcomeText {
    ghost use Rattle.std.specs.Prelude.{Some};
    ghost use Rattle.run_digest.specs.Texts.{outcome_text};

    ghost output = { λ text. Some (outcome_text text.0) };

    #[tactic(auto, unfolding(crate::specs::Texts::outcome_text))]
    fn fmt<W: Write>(&self, f: &mut Formatter<W>) -> fmt::Result {
        match self.0 {
            RunOutcome::Exit(status) => write!(f, "exit {status}"),
            RunOutcome::Finished(status) => write!(f, "finished {status}"),
            RunOutcome::Trap { thread, pc, trap } => {
                write!(f, "trap thread={thread} pc={} {}", Word(pc), TrapText(trap))
            }
            RunOutcome::Deadlock => write!(f, "deadlock"),
        }
    }
}

/// Why a thread trapped.
#[derive(Clone, Copy)]
struct TrapText(Trap);

impl fmt::Display for TrapText {
    ghost use Rattle.std.specs.Prelude.{Some};
    ghost use Rattle.run_digest.specs.Texts.{trap_text};

    ghost output = { λ text. Some (trap_text text.0) };

    #[tactic(auto, unfolding(crate::specs::Texts::trap_text))]
    fn fmt<W: Write>(&self, f: &mut Formatter<W>) -> fmt::Result {
        let cause = self.0.cause.number();
        let value = self.0.value;
        write!(f, "cause={cause} value={}", Word(value))
    }
}

/// A word as eight hexadecimal digits.
#[derive(Clone, Copy)]
struct Word(u32);

impl fmt::Display for Word {
    ghost use Rattle.std.specs.Prelude.{Some};
    ghost use Rattle.text_output.specs.Digits.{hexadecimal};

    ghost output = { λ word. Some (hexadecimal 8 word.0) };

    fn fmt<W: Write>(&self, f: &mut Formatter<W>) -> fmt::Result {
        let number = self.0;
        write!(f, "{number:08x}")
    }
}
