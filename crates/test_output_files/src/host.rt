//! What is done to the host's files beside the crate that is tested, and what is seen of them. Touches the named files.

use crate::words::{octal, split};
use std::fs::Permissions;
use std::os::unix::fs::{PermissionsExt, symlink};
use std::{fs, io};

/// Changes a file.
pub fn change(rt: &HostRuntime, verb: &str, rest: &str) -> io::Result<bool> {
    let (path, rest) = split(rest);
    match verb {
        "file" => fs::write(rt, path, rest)?,
        "mode" => fs::set_permissions(rt, path, Permissions::from_mode(octal(rest)))?,
        "folder" => fs::create_dir(rt, path)?,
        "link" => symlink(rt, rest, path)?,
        "twin" => fs::hard_link(rt, rest, path)?,
        "remove" => fs::remove_file(rt, path)?,
        _ => return Ok(false),
    }
    Ok(true)
}

/// Whether a file is as wanted.
pub fn is_there(rt: &HostRuntime, verb: &str, rest: &str) -> io::Result<bool> {
    let (path, rest) = split(rest);
    match verb {
        "file" => has_text(rt, path, rest),
        "mode" => Ok(mode_of(rt, path)? == octal(rest)),
        "link" => is_link(rt, path),
        "some" | "none" => Ok(fs::exists(rt, path)? == (verb == "some")),
        _ => Ok(false),
    }
}

/// Whether a file has this text.
fn has_text(rt: &HostRuntime, path: &str, text: &str) -> io::Result<bool> {
    Ok(fs::read(rt, path)?.as_slice() == text.as_bytes())
}

/// Whether a path is that of a symbolic link.
fn is_link(rt: &HostRuntime, path: &str) -> io::Result<bool> {
    Ok(fs::symlink_metadata(rt, path)?.is_symlink())
}

/// The permissions of a file.
pub fn mode_of(rt: &HostRuntime, path: &str) -> io::Result<u32> {
    Ok(fs::metadata(rt, path)?.permissions().mode() % 0o1000)
}
