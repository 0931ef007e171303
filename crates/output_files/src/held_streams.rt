//! Standard streams that the program was started without. Opens the root folder in their places.
ghost use Rattle.std.specs.Prelude.{◌<ℤ◌, IfOk, IfSome, pos};

use std::io::ErrorKind;
use std::os::fd::{AsFd, AsRawFd};
use std::{fs, io, rt};

/// What is opened in the place of a closed stream: a folder that each host has. Every read from it and every write to it fails.
pub const PLACE_HOLDER: &str = "/";

/// The number of the last standard stream, standard error.
const LAST_STREAM: i32 = 2;

/// How many files are opened at most: one for each standard stream, and one beyond.
const MOST_FILES: u32 = 4;

/// Open files of which nothing but their numbers matters: while it lives, no other file gets the number of a standard stream.
#[derive(Drop)]
pub struct HeldStreams<F> {
    /// Those that have the numbers of standard streams.
    pub(crate) held: Vec<F>,
    /// The next one, which shows that no such number was left.
    pub(crate) beyond: F,
}

/// Whether a stream is open.
pub fn is_open<S: AsFd>(stream: &S) -> bool {
    stream.as_fd().try_clone_to_owned().is_ok()
}

/// Holds the numbers of the standard streams that are closed. The host gives each file the lowest number that is free, so all of
/// them are taken once a file has a higher one.
pub fn hold_streams<R: rt::Files + AllocGlobal>(host: &R) -> io::Result<HeldStreams<R::File>>
where
    R::File: AsRawFd,
    ensures beyond { IfOk result (λ streams. IfSome (R.File.raw_fd streams.beyond) (λ number. pos 2 <ℤ number)) }
{
    let mut held = Vec::new(host.alloc());
    for _ in 0..MOST_FILES {
        let file = fs::open(host, PLACE_HOLDER)?;
        if file.as_raw_fd() > LAST_STREAM {
            return Ok(HeldStreams { held, beyond: file });
        }
        held.push(file)?;
    }
    Err(io::Error::from(ErrorKind::Other))
}
