//! The host's files behind the trait. Touches the file system below the named paths.
use crate::access::Files;
use crate::begin_fault::BeginFault;
use crate::file_name::{FileName, PART};
use crate::host_output::{End, HostOutput, copy_text};
use crate::identity::Identity;
use crate::links::followed;
use crate::read_fault::ReadFault;
use crate::reading::read_upto;
use crate::write_fault::WriteFault;
use std::alloc::Global;
use std::fs::{OpenFile, OpenOptions, Permissions};
use std::io::{ErrorKind, Write};
use std::os::unix::fs::OpenOptionsExt;
use std::path::Path;
use std::{env, fs, io, rt};

/// How many names are tried for a file that is to have none.
const MOST_NAMES: u32 = 1000;

/// The files of the host.
#[derive(Drop)]
pub struct HostFiles<'r, R> {
    host: &'r R,
}

impl<'r, R: rt::Files + rt::Env + AllocGlobal> HostFiles<'r, R> {
    /// The files that this host has.
    pub fn new(host: &'r R) -> Self {
        HostFiles { host }
    }

    /// Begins the output for the regular file at a place, which is there where it has permissions. The path is the one that
    /// leads to it.
    fn begin_part(
        &self,
        path: &str,
        place: String,
        old: Option<Permissions>,
    ) -> Result<HostOutput<R::File>, BeginFault> {
        if Path::new(place.as_str()).file_name().is_none() {
            return Err(BeginFault::Write(WriteFault::WriteFailed));
        }
        let mut part = place.clone()?;
        part.push_str(PART)?;
        let made = match old {
            Some(permissions) => {
                open_to_write(self.host, place.as_str())?;
                new_file_with(self.host, part.as_str(), permissions)
            }
            None => new_file(self.host, part.as_str()),
        };
        let file = made.map_err(|error| part_fault(error, place.as_str() == path))?;
        Ok(HostOutput {
            file,
            end: End::Replace { part, place },
        })
    }

    /// Begins the output for what isn't a regular file.
    fn begin_copy(&self, path: &str) -> Result<HostOutput<R::File>, BeginFault> {
        let target = open_to_write(self.host, path)?;
        Ok(HostOutput {
            file: nameless_file(self.host)?,
            end: End::Copy(target),
        })
    }

    /// Begins the output for the file at a path.
    fn begin_at(&self, path: &str) -> Result<HostOutput<R::File>, BeginFault> {
        match fs::metadata(self.host, path) {
            Ok(old) if !old.is_file() => self.begin_copy(path),
            Ok(old) => {
                let place = followed(self.host, path)?;
                self.begin_part(path, place, Some(old.permissions()))
            }
            Err(_) => self.begin_part(path, followed(self.host, path)?, None),
        }
    }
}

impl<R: rt::Files + rt::Env + AllocGlobal> Files for HostFiles<'_, R> {
    type Output = HostOutput<R::File>;

    fn read(&self, alloc: Global, path: &str, limit: usize) -> Result<Vec<u8>, ReadFault> {
        match fs::open(self.host, path) {
            Ok(mut file) => read_upto(alloc, &mut file, limit),
            Err(_) => Err(ReadFault::ReadFailed),
        }
    }

    fn is_one_file(
        &self,
        alloc: Global,
        one: FileName<'_>,
        other: FileName<'_>,
    ) -> Result<bool, WriteFault> {
        if one.text(alloc)? == other.text(alloc)? {
            return Ok(true);
        }
        match is_same_identity(self.host, one, other).map_err(WriteFault::from) {
            Err(WriteFault::WriteFailed) => Ok(false),
            answer => answer,
        }
    }

    fn begin(&mut self, _alloc: Global, path: &str) -> Result<Self::Output, BeginFault> {
        let output = self.begin_at(path)?;
        Ok(output)
    }

    fn begin_aside(&mut self) -> Result<Self::Output, WriteFault> {
        Ok(HostOutput {
            file: nameless_file(self.host)?,
            end: End::Aside,
        })
    }

    fn finish(&mut self, _path: &str, output: Self::Output) -> Result<(), WriteFault> {
        let mut output = output;
        let ended = match &mut output.end {
            End::Replace { part, place } => fs::rename(self.host, part.as_str(), place.as_str()),
            End::Copy(target) => copy_text(&mut output.file, target),
            End::Aside => Ok(()),
        };
        output.close();
        ended.map_err(|_| WriteFault::WriteFailed)
    }

    fn copy<W: Write>(&mut self, output: Self::Output, writer: &mut W) -> Result<(), WriteFault> {
        let mut output = output;
        let copied = copy_text(&mut output.file, writer);
        output.close();
        copied.map_err(|_| WriteFault::WriteFailed)
    }

    fn abandon(&mut self, _path: &str, output: Self::Output) {
        if let End::Replace { part, .. } = &output.end {
            let _ = fs::remove_file(self.host, part.as_str());
        }
        output.close();
    }

    fn abandon_aside(&self, output: Self::Output) {
        output.close();
    }
}

/// Whether two names are of one file of a host.
fn is_same_identity<R: rt::Files + AllocGlobal>(
    host: &R,
    one: FileName<'_>,
    other: FileName<'_>,
) -> io::Result<bool> {
    Ok(Identity::of(host, one)? == Identity::of(host, other)?)
}

/// Why a part couldn't be made. What is in its way is told only of a part that is beside the named path: one beside the target
/// of a link has no name that the user gave.
fn part_fault(error: io::Error, is_beside: bool) -> BeginFault {
    if is_beside && error.kind() == ErrorKind::AlreadyExists {
        return BeginFault::PartBlocked;
    }
    BeginFault::from(error)
}

/// Opens a file that is there, and leaves what it holds.
fn open_to_write<R: rt::Files>(host: &R, path: &str) -> io::Result<R::File> {
    OpenOptions::new().write(true).open(host, path)
}

/// Makes a file, in place of one that an interrupted run left.
fn new_file<R: rt::Files>(host: &R, path: &str) -> io::Result<R::File> {
    let _ = fs::remove_file(host, path);
    OpenOptions::new()
        .write(true)
        .create_new(true)
        .open(host, path)
}

/// Makes a file with these permissions, in place of one that an interrupted run left.
fn new_file_with<R: rt::Files>(
    host: &R,
    path: &str,
    permissions: Permissions,
) -> io::Result<R::File> {
    let file = new_file(host, path)?;
    match file.set_permissions(permissions) {
        Ok(()) => Ok(file),
        Err(error) => {
            let _ = fs::remove_file(host, path);
            Err(error)
        }
    }
}

/// Makes a file to write and read that no path leads to, among the host's temporary files.
fn nameless_file<R: rt::Files + rt::Env + AllocGlobal>(host: &R) -> io::Result<R::File> {
    let mut path = env::temp_dir(host)?;
    path.push("dthreads")?;
    for number in 0..MOST_NAMES {
        let name = format!(in host.alloc(); "dthreads-{number}")?;
        path.set_file_name(name.as_str())?;
        let made = OpenOptions::new()
            .read(true)
            .write(true)
            .create_new(true)
            .mode(0o600)
            .open(host, &path);
        match made {
            Ok(file) => {
                fs::remove_file(host, &path)?;
                return Ok(file);
            }
            Err(error) if error.kind() == ErrorKind::AlreadyExists => {}
            Err(error) => return Err(error),
        }
    }
    Err(io::Error::from(ErrorKind::AlreadyExists))
}
