//! The law of one history: of two legal histories of one setup, one is a prefix of the other. It has no code.
ghost use Rattle.token.specs.Law.{Determinism, Progress, MutualExclusion, OneBeginning};

/// The law of one history: what a run answers depends on what it is given alone, a run goes on until it has an
/// outcome, no turn finds a mutex held by another thread, and a phase begins with one version.
pub fn one_history()
    ensures determinism { Determinism }
    ensures progress { Progress }
    ensures mutual_exclusion { MutualExclusion }
    ensures one_beginning { OneBeginning }
{}
