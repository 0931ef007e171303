//! The texts that a run can leave beside its outcome.
ghost use Rattle.std.specs.Prelude.{◌≡◌};
ghost use Rattle.command_requests.specs.Texts as spec;

/// A text that a run can leave beside its outcome.
#[derive(Clone, Copy)]
pub enum Text {
    /// The trace, written as the turns are done.
    Trace,
    /// The timeline, written as the turns are done.
    Timeline,
    /// The sharing report, gathered as the turns are done and made at the end.
    Report,
    /// The data races and other faults, found as the turns are done and made a text at the end.
    Findings,
    /// The core file, made of the end alone.
    Core,
    /// The digest, gathered as the turns are done and made at the end.
    Digest,
}

impl Text {
    /// Whether it is the findings, for which a run is observed.
    pub(crate) fn is_findings(self) -> bool
        ensures { result ≡ spec.is_findings self }
    {
        matches!(self, Text::Findings)
    }
}
