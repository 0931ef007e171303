//! Symbolic links, followed up to a limit. Reads the host's links alone.
use std::alloc::{AllocError, Global};
use std::io::ErrorKind;
use std::path::PathBuf;
use std::{fs, io, rt};

/// How many symbolic links are followed at most, as by the host.
const MOST_LINKS: u32 = 40;

/// The path that the symbolic links at the end of a path lead to. There need be no file at it.
pub(crate) fn followed<R: rt::Files + AllocGlobal>(host: &R, path: &str) -> io::Result<String> {
    let alloc = host.alloc();
    let mut path = String::from_str(alloc, path)?;
    for _ in 0..MOST_LINKS {
        match fs::read_link(host, path.as_str()) {
            Ok(target) => path = beside(alloc, path.as_str(), &target)?,
            Err(error) if error.kind() == ErrorKind::OutOfMemory => return Err(error),
            Err(_) => return Ok(path),
        }
    }
    Err(io::Error::from(ErrorKind::FilesystemLoop))
}

/// The path of what a link calls so.
fn beside(alloc: Global, link: &str, target: &PathBuf) -> Result<String, AllocError> {
    let mut path = PathBuf::from_str(alloc, link)?;
    path.pop();
    path.push(target)?;
    Ok(path.into_string())
}
