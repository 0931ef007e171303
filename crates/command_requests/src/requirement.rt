//! Whether a parameter of a command must be given.

/// Whether a parameter must be given, and its value if it isn't.
#[derive(Clone, Copy)]
pub(crate) enum Requirement {
    /// It may be left out, and has no value then.
    Optional,
    /// It must be given.
    Required,
    /// It may be left out, and has this value then.
    Default(&'static str),
}
