//! What the runs of an exploration share.

/// What the runs of an exploration share, as its command line says it.
#[derive(Clone, Copy)]
pub struct Setting<'a> {
    /// The program's file.
    pub file: &'a str,
    /// The file of the input, or none if it is standard input.
    pub input: Option<&'a str>,
    /// How many instructions each guest thread executes at most.
    pub bound: u64,
    /// How many instructions a thread executes at most before it synchronises, or none.
    pub quantum: Option<u64>,
}
