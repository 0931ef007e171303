//! A text of a run that is wanted.
ghost use Rattle.std.specs.Prelude.{◌≡◌};
ghost use Rattle.command_requests.specs.Texts as spec;

use crate::destination::Destination;
use crate::text::Text;

/// A text of a run that is wanted, and where it goes.
#[derive(Clone, Copy)]
pub struct RequestedText<'a> {
    /// Which text.
    pub text: Text,
    /// Where it goes.
    pub destination: Destination<'a>,
}

/// Whether the findings are among the texts that are wanted.
pub fn wants_findings(wanted: &[RequestedText<'_>]) -> bool
    ensures { result ≡ spec.wants_findings wanted.now }
{
    let [first, others @ ..] = wanted else {
        return false;
    };
    first.text.is_findings() || wants_findings(others)
}
