//! The debugging of a file's program by gdb, which speaks on standard input and output.
ghost use Rattle.std.specs.Prelude.{◌≡◌, ◌⊎◌, ◌^◌, ◌<◌, IfErr, IfOk, IfSome, OnOk};
ghost use Rattle.token.specs.RunInTurn.{point_of};
ghost use Rattle.command_requests.specs.Reading.{AreRead, IsUnreadAt};
ghost use Rattle.command_run.specs.Serves.{IsOpenedFrom};
ghost use Rattle.command_line.specs.Debugging.{AreDebugged, IsCutOff, IsDebugged, IsUndebugged, debugging_status};

use crate::incoming::{Incoming, Piece, read_all};
use crate::serving::{ServeFault, serve};
use command_requests::{Failure, Target, fail};
use command_run::open_bytes;
use crossbeam_channel::{Sender, bounded};
use elf32_reader::FILE_LIMIT;
use gdb_protocol::Session;
use output_files::Files;
use runtime::{Config, MAX_INPUT};
use std::alloc::{AllocError, Global};
use std::io::{Read, Write};
use std::sync::Wait;
use std::thread::{Threads, scope, scope_env};
use timeline::{Spacing, Timeline};
use token::Start;

/// How many pieces of input wait at most.
const PIECES: usize = 64;

/// What is debugged.
#[derive(Clone, Copy)]
pub(crate) struct Debugging<'a> {
    /// The program's file.
    pub(crate) file: &'a str,
    /// The file of the guest's input, which is empty if there is none.
    pub(crate) input: Option<&'a str>,
    /// The turn at whose start gdb finds the program, from 1.
    pub(crate) turn: u64,
}

/// Debugs the program of a file: answers gdb, which speaks on `stdin`, on `stdout`, until it ends the session or the input
/// ends.
#[tactic(auto, using(crate::proofs::OpenedSession::is_debugged))]
pub(crate) fn debug_file<'a, H: Threads + Wait + Sync, F: Files, R: Read + Send, W: Write>(
    rt: &H,
    alloc: Global,
    debugging: &Debugging<'a>,
    config: &Config,
    files: &F,
    stdin: &mut R,
    stdout: &mut W,
) -> Result<(), Failure<'a>>
    ensures accepted { OnOk result (IsDebugged (F.content files.now) debugging.now config.now) }
    ensures failed { IfErr result (λ failure.
        (IsUndebugged (F.content files.now) debugging.now config.now failure × (stdin.new ≡ stdin.old) × (stdout.new ≡ stdout.old))
        ⊎ (IsCutOff failure × IsDebugged (F.content files.now) debugging.now config.now)) }
{
    let start = open(alloc, debugging, config, files)?;
    let session = session_of(alloc, start, debugging.turn)?;
    let (sender, receiver) = bounded(alloc, PIECES)?;
    let incoming = Incoming::new(alloc, receiver);
    match serve_beside(rt, alloc, stdin, sender, session, incoming, stdout) {
        Ok(()) => Ok(()),
        Err(ServeFault::OutOfMemory) => Err(Failure::OutOfMemory),
        Err(ServeFault::ReadFailed) => Err(Failure::CannotRead(Target::StandardInput)),
        Err(ServeFault::WriteFailed) => Err(Failure::CannotWrite(Target::StandardOutput)),
    }
}

/// Serves a session, and reads its input in a host thread beside it. Out of memory if there is none.
fn serve_beside<H: Threads + Wait + Sync, R: Read + Send + Drop, W: Write + Drop>(
    rt: &H,
    alloc: Global,
    input: R,
    pieces: Sender<Piece, Global>,
    session: Session,
    incoming: Incoming,
    output: W,
) -> Result<(), ServeFault> {
    let reader = move || {
        let mut input = input;
        read_all(rt, alloc, &mut input, pieces)
    };
    scope(scope_env(), rt, move |scope| {
        let (mut session, mut incoming, mut output) = (session, incoming, output);
        match scope.spawn(reader) {
            Ok(_handle) => serve(rt, &mut session, &mut incoming, &mut output),
            Err(refused) => Err(ServeFault::from(AllocError::from(refused))),
        }
    })
}

/// The run of the program, of which no turn is done.
#[tactic(auto, using(crate::proofs::Quantum::not_zero))]
fn open<'a, F: Files>(
    alloc: Global,
    debugging: &Debugging<'a>,
    config: &Config,
    files: &F,
) -> Result<Start, Failure<'a>>
    ensures quantum { IfOk result (λ start. IfSome (point_of start).setup.quantum (λ q. 0 < q)) }
    ensures opened { IfOk result (λ start. AreDebugged (F.content files.now) debugging.now (IsOpenedFrom config.now start)) }
    ensures failed { IfErr result (IsUndebugged (F.content files.now) debugging.now config.now) }
{
    let elf = read(alloc, debugging.file, FILE_LIMIT, files)?;
    let input = match debugging.input {
        Some(path) => read(alloc, path, MAX_INPUT, files)?,
        None => Vec::new(alloc),
    };
    open_bytes(alloc, elf.as_slice(), input.as_slice(), config)
}

/// The bytes of a file, and one more than the limit if it has so many.
fn read<'a, F: Files>(
    alloc: Global,
    path: &'a str,
    limit: usize,
    files: &F,
) -> Result<Vec<u8>, Failure<'a>>
    requires { limit < 2 ^ 32 }
    ensures read { IfOk result (λ bytes. AreRead limit (F.content files.now path.now) bytes.items) }
    ensures failed { IfErr result (IsUnreadAt path.now) }
{
    match files.read(alloc, path, limit) {
        Ok(bytes) => Ok(bytes),
        Err(fault) => Err(Failure::of_read(Target::Path(path), fault)),
    }
}

/// A session over a run, at the start of a turn.
fn session_of<'a>(alloc: Global, start: Start, turn: u64) -> Result<Session, Failure<'a>>
    requires { IfSome (point_of start).setup.quantum (λ q. 0 < q) }
    ensures { IfErr result (λ failure. failure ≡ Failure.OutOfMemory) }
{
    let timeline = Timeline::open(alloc, start, Spacing::USUAL)?;
    let mut session = Session::new(alloc, timeline)?;
    session.begin_at(turn)?;
    Ok(session)
}

/// Says why a debugging failed, if it did, and answers the status.
pub(crate) fn conclude_debugging<E: Write>(answer: Result<(), Failure<'_>>, stderr: &mut E) -> u8
    ensures { result ≡ debugging_status answer.entry }
{
    match answer {
        Ok(()) => 0,
        Err(failure) => fail(failure, stderr),
    }
}
