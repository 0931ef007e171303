//! The target of a read or a write, which a failure names: a file by its path, or a standard stream.
use output_files::PART;
use std::fmt;

/// What the program reads from or writes to.
#[derive(Clone, Copy, Debug)]
pub enum Target<'a> {
    /// The file at this path.
    Path(&'a str),
    /// The part of the file at this path.
    PartOf(&'a str),
    StandardInput,
    StandardOutput,
}

impl fmt::Display for Target<'_> {
    fn fmt<W: fmt::Write>(&self, f: &mut fmt::Formatter<W>) -> fmt::Result {
        match self {
            Target::Path(path) => f.write_str(path),
            Target::PartOf(path) => {
                f.write_str(path)?;
                f.write_str(PART)
            }
            Target::StandardInput => f.write_str("standard input"),
            Target::StandardOutput => f.write_str("standard output"),
        }
    }
}
