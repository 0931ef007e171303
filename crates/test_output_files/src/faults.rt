//! Which errors of the host say that memory was refused.

use output_files::WriteFault;
use std::io;
use std::io::ErrorKind;

/// Whether the error of this name is out of memory, or a failed write.
pub fn is_fault(name: &str, fault: &str) -> bool {
    let wanted = match fault {
        "out-of-memory" => WriteFault::OutOfMemory,
        _ => WriteFault::WriteFailed,
    };
    WriteFault::from(io::Error::from(kind_of(name))) == wanted
}

/// The kind of the errors of a name.
pub fn kind_of(name: &str) -> ErrorKind {
    match name {
        "memory" => ErrorKind::OutOfMemory,
        "end" => ErrorKind::UnexpectedEof,
        "full" => ErrorKind::StorageFull,
        "denied" => ErrorKind::PermissionDenied,
        "interrupted" => ErrorKind::Interrupted,
        _ => ErrorKind::Other,
    }
}
