//! Reads a reader up to a limit, in pieces. Touches the reader alone.
ghost use Rattle.std.specs.Prelude.{◌≡◌, ◌≢◌, ◌↔◌, ◌+◌, ◌-◌, ◌^◌, ◌<◌, ◌≤◌, length, take, IfOk, IfSome, OnOk, OnErr, IsErrOf, vec_len};
ghost use Rattle.std.specs.Io.KnownBytes.{Consumes, IsAtEnd, Keeps};
ghost use Rattle.output_files.specs.Taken.{TakesAtMost};

use crate::read_fault::ReadFault;
use std::alloc::Global;
use std::io::{ErrorKind, Read};

/// How many bytes are asked for at once.
const PIECE: usize = 16_384;

/// The next `limit + 1` bytes of a reader, or all where fewer are left. After an error some of them may
/// have been taken from the reader.
pub fn read_upto<R: Read>(alloc: Global, reader: &mut R, limit: usize) -> Result<Vec<u8>, ReadFault>
    requires { limit < 2 ^ 32 }
    ensures length { IfOk result (λ bytes. vec_len bytes ≤ limit + 1) }
    ensures bytes { IfOk result (λ bytes. IfSome (R.remaining reader.old)
        (λ all. bytes.items ≡ take (limit + 1) all)) }
    ensures rest { IfOk result (λ bytes. Consumes (R.remaining reader.old) (R.remaining reader.new) bytes.items) }
    ensures err { OnErr result (TakesAtMost (limit + 1) (R.remaining reader.old) (R.remaining reader.new)) }
{
    let mut failures = 0;
    read_counting(alloc, reader, limit, &mut failures)
}

/// As `read_upto`, with a count of the reads that failed: `ReadFailed` is answered exactly where one did.
pub fn read_counting<R: Read>(
    alloc: Global,
    reader: &mut R,
    limit: usize,
    failures: &mut u64,
) -> Result<Vec<u8>, ReadFault>
    requires limit { limit < 2 ^ 32 }
    requires countable { failures.old < 2 ^ 64 - 1 }
    ensures length { IfOk result (λ bytes. vec_len bytes ≤ limit + 1) }
    ensures bytes { IfOk result (λ bytes. Consumes (R.remaining reader.old) (R.remaining reader.new) bytes.items) }
    ensures end { IfOk result (λ bytes. vec_len bytes ≤ limit → IsAtEnd (R.remaining reader.new)) }
    ensures err { OnErr result (TakesAtMost (limit + 1) (R.remaining reader.old) (R.remaining reader.new)) }
    ensures failed { IsErrOf result ReadFault.ReadFailed ↔ (failures.new ≢ failures.old) }
{
    let mut bytes = Vec::new(alloc);
    let mut piece = [0u8; PIECE];
    'pieces: while bytes.len() <= limit {
        let room = (limit + 1 - bytes.len()).min(PIECE);
        let count = read_piece(reader, &mut piece[..room], failures)?;
        if count == 0 {
            return Ok(bytes);
        }
        bytes.extend_from_slice(&piece[..count])?;
    }
    Ok(bytes)
}

/// Reads into `piece` what comes next, and answers how many bytes that was: 0 only at the end, or where
/// there is no room. A read that a signal interrupts is made again.
fn read_piece<R: Read>(
    reader: &mut R,
    piece: &mut [u8],
    failures: &mut u64,
) -> Result<usize, ReadFault>
    requires { failures.old < 2 ^ 64 - 1 }
    ensures count { IfOk result (λ count. count ≤ length piece.new) }
    ensures bytes { IfOk result (λ count. Consumes (R.remaining reader.old) (R.remaining reader.new) (take count piece.new)) }
    ensures end { IfOk result (λ count. count ≡ 0 → 0 < length piece.new → IsAtEnd (R.remaining reader.new)) }
    ensures ok { OnOk result (failures.new ≡ failures.old) }
    ensures kept { OnErr result (Keeps (R.remaining reader.old) (R.remaining reader.new)) }
    ensures failed { OnErr result (failures.new ≡ failures.old + 1) }
    ensures fault { OnErr result (IsErrOf result ReadFault.ReadFailed) }
{
    'tries: for _ in 0..u64::MAX {
        match reader.read(piece) {
            Ok(count) => return Ok(count),
            Err(error) if error.kind() == ErrorKind::Interrupted => {}
            Err(_) => break,
        }
    }
    *failures += 1;
    Err(ReadFault::ReadFailed)
}
