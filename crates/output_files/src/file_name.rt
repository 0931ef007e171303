//! The name of a file, or of the part that will take its place.
ghost use Rattle.std.specs.Prelude.{◌≡◌, IfOk};
ghost use Rattle.std.specs.String.{string_bytes};

use std::alloc::{AllocError, Global};
use std::fmt;

/// What a text that is not whole yet is called after: the name of its file and this.
pub const PART: &str = ".part";

/// A file, by an argument of the command line.
#[derive(Clone, Copy, Debug, PartialEq, Eq)]
pub enum FileName<'a> {
    /// The file at this path.
    At(&'a str),
    /// The one that a text for the file at this path is put into until it is whole.
    PartOf(&'a str),
}

impl<'a> FileName<'a> {
    ghost use Rattle.output_files.specs.Names.{path_of};

    /// The path of the file, or of the one whose part it is.
    pub fn path(self) -> &'a str
        ensures { result.now ≡ path_of self.entry }
    {
        match self {
            FileName::At(path) | FileName::PartOf(path) => path,
        }
    }
}

impl FileName<'_> {
    ghost use Rattle.output_files.specs.Names.{text_of};

    /// The path as it is written: of a part, that of its file with `.part` after it.
    pub fn text(self, alloc: Global) -> Result<String, AllocError>
        ensures { IfOk result (λ text. string_bytes text ≡ text_of self.entry) }
    {
        match self {
            FileName::At(path) => String::from_str(alloc, path),
            FileName::PartOf(path) => {
                let mut text = String::from_str(alloc, path)?;
                text.push_str(PART)?;
                Ok(text)
            }
        }
    }
}

impl fmt::Display for FileName<'_> {
    fn fmt<W: fmt::Write>(&self, f: &mut fmt::Formatter<W>) -> fmt::Result {
        match self {
            FileName::At(path) => f.write_str(path),
            FileName::PartOf(path) => {
                f.write_str("the ")?;
                f.write_str(PART)?;
                f.write_str(" of ")?;
                f.write_str(path)
            }
        }
    }
}
