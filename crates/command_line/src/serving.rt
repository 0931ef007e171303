//! A session that is served: its bytes come in and go out, and the run goes on between.
ghost use Rattle.std.specs.Prelude.{◌≡◌, [], IfErr, OnOk};
ghost use Rattle.std.specs.Io.KnownBytes.{Appends};
ghost use Rattle.gdb_packets.specs.Wire.{sent_of};

use crate::incoming::{Coming, Incoming};
use gdb_protocol::Session;
use output_files::ReadFault;
use std::alloc::AllocError;
use std::io::Write;
use std::sync::Wait;
use thiserror::Error;

/// The byte by which gdb interrupts a run.
const INTERRUPT: u8 = 3;

/// Why a session was cut off.
#[derive(Clone, Copy, Debug, PartialEq, Eq, Error)]
pub(crate) enum ServeFault {
    /// Memory was refused.
    #[error("out of memory")]
    OutOfMemory,
    /// What gdb says can't be read.
    #[error("cannot read")]
    ReadFailed,
    /// The answers can't be written.
    #[error("cannot write")]
    WriteFailed,
}

impl From<AllocError> for ServeFault {
    fn from(_error: AllocError) -> Self {
        ServeFault::OutOfMemory
    }
}

impl From<ReadFault> for ServeFault {
    fn from(fault: ReadFault) -> Self {
        match fault {
            ReadFault::ReadFailed => ServeFault::ReadFailed,
            ReadFault::OutOfMemory => ServeFault::OutOfMemory,
        }
    }
}

/// Serves a session until it is over or its input ends.
pub(crate) fn serve<H: Wait, W: Write>(
    rt: &H,
    session: &mut Session,
    incoming: &mut Incoming,
    output: &mut W,
) -> Result<(), ServeFault> {
    for _ in rt.forever() {
        send(session, output)?;
        if session.is_over() {
            return Ok(());
        }
        if session.is_running() {
            if !run(rt, session, incoming, output)? {
                return Ok(incoming.end()?);
            }
        } else {
            match incoming.next(rt) {
                Some(byte) => session.hear(byte)?,
                None => return Ok(incoming.end()?),
            }
        }
    }
    unreachable!()
}

/// Goes on with the run until it stops. False if the input ends meanwhile.
fn run<H: Wait, W: Write>(
    rt: &H,
    session: &mut Session,
    incoming: &mut Incoming,
    output: &mut W,
) -> Result<bool, ServeFault> {
    for _ in rt.forever() {
        if incoming.peek(rt) == Coming::Byte(INTERRUPT) {
            incoming.skip();
            session.hear(INTERRUPT)?;
        } else {
            session.advance()?;
        }
        if !session.is_running() {
            return Ok(true);
        }
        send(session, output)?;
        if incoming.peek(rt) == Coming::End {
            return Ok(false);
        }
    }
    unreachable!()
}

/// Writes the bytes that a session has for gdb, and nothing else.
fn send<W: Write>(session: &mut Session, output: &mut W) -> Result<(), ServeFault>
    ensures sent { OnOk result (Appends (W.contents output.old) (W.contents output.new) (sent_of session.old.wire)) }
    ensures taken { sent_of session.new.wire ≡ [] }
    ensures failed { IfErr result (λ fault. fault ≡ ServeFault.WriteFailed) }
{
    let bytes = session.take_output();
    if bytes.is_empty() {
        return Ok(());
    }
    if output.write_all(bytes.as_slice()).is_err() || output.flush().is_err() {
        return Err(ServeFault::WriteFailed);
    }
    Ok(())
}
