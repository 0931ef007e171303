//! Which file of the host a name is of: by device and inode, or by folder and name if it is not there yet.
use crate::file_name::{FileName, PART};
use crate::links::followed;
use std::os::unix::fs::MetadataExt;
use std::path::Path;
use std::{fs, io, rt};

/// Which file a name is of, among the files of a host.
#[derive(Debug, PartialEq, Eq, Drop)]
pub(crate) enum Identity {
    /// A file that is there.
    Found(FileNode),
    /// A file that isn't there yet, by the folder that it would be in and its name there.
    Wanted { folder: FileNode, name: String },
    /// There is no such folder either.
    Nowhere(String),
}

/// A file by its device and its number there.
#[derive(Clone, Copy, Debug, PartialEq, Eq)]
pub(crate) struct FileNode {
    device: u64,
    number: u64,
}

impl Identity {
    /// The identity of the file with this name.
    pub(crate) fn of<R: rt::Files + AllocGlobal>(host: &R, name: FileName<'_>) -> io::Result<Self> {
        let path = match name {
            FileName::At(path) => followed(host, path)?,
            FileName::PartOf(path) => {
                let mut part = followed(host, path)?;
                part.push_str(PART)?;
                part
            }
        };
        match node_at(host, path.as_str()) {
            Some(node) => Ok(Identity::Found(node)),
            None => wanted(host, path),
        }
    }
}

/// The identity of a file that isn't there.
fn wanted<R: rt::Files + AllocGlobal>(host: &R, path: String) -> io::Result<Identity> {
    let (Some(folder), Some(name)) = (
        folder_of(path.as_str()),
        Path::new(path.as_str()).file_name(),
    ) else {
        return Ok(Identity::Nowhere(path));
    };
    match node_at(host, folder) {
        Some(folder) => Ok(Identity::Wanted {
            folder,
            name: String::from_str(host.alloc(), name)?,
        }),
        None => Ok(Identity::Nowhere(path)),
    }
}

/// The folder of a path.
fn folder_of(path: &str) -> Option<&str> {
    match Path::new(path).parent()?.as_str() {
        "" => Some("."),
        folder => Some(folder),
    }
}

/// The file at a path, where there is one.
fn node_at<R: rt::Files>(host: &R, path: &str) -> Option<FileNode> {
    let metadata = fs::metadata(host, path).ok()?;
    Some(FileNode {
        device: metadata.dev(),
        number: metadata.ino(),
    })
}
