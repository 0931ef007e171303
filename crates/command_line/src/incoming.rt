//! The bytes of gdb, as a host thread of their own reads them.
use crossbeam_channel::{Receiver, Sender, TryRecvError};
use output_files::ReadFault;
use std::alloc::Global;
use std::io::{ErrorKind, Read};
use std::sync::Wait;

/// How many bytes are read at once at most.
const PIECE: usize = 4096;

/// What was read at once.
#[derive(Drop)]
pub(crate) enum Piece {
    /// These bytes.
    Bytes(Vec<u8>),
    /// A read that failed, or bytes for which there was no memory. Nothing is read after them.
    Lost(ReadFault),
}

/// The bytes of gdb that were read, in their order.
#[derive(Drop)]
pub(crate) struct Incoming {
    pieces: Receiver<Piece, Global>,
    /// The piece whose bytes come next.
    piece: Vec<u8>,
    /// How many of its bytes were taken.
    taken: usize,
    /// Why the input ends, if it isn't at its end.
    lost: Option<ReadFault>,
}

/// What comes next, as far as it is known without waiting.
#[derive(Clone, Copy, Debug, PartialEq, Eq)]
pub(crate) enum Coming {
    /// This byte.
    Byte(u8),
    /// Nothing yet.
    Nothing,
    /// Nothing any more.
    End,
}

impl Incoming {
    ghost use Rattle.std.specs.Prelude.{◌≡◌, ◌+◌, None, Some, IfErr, IfNone, IfSome, IsSome, OnOk};
    ghost use Rattle.command_line.specs.Incoming.{byte_at_hand, Comes, IsPassed, Takes};

    /// The bytes of these pieces, of which none is read yet.
    pub fn new(alloc: Global, pieces: Receiver<Piece, Global>) -> Self
        ensures none { byte_at_hand result ≡ None }
        ensures whole { result.lost ≡ None }
    {
        Incoming {
            pieces,
            piece: Vec::new(alloc),
            taken: 0,
            lost: None,
        }
    }

    /// What its end comes to: a read may have failed, or memory run out.
    pub fn end(&self) -> Result<(), ReadFault>
        ensures whole { OnOk result (self.now.lost ≡ None) }
        ensures lost { IfErr result (λ fault. self.now.lost ≡ Some fault) }
    {
        match self.lost {
            Some(fault) => Err(fault),
            None => Ok(()),
        }
    }

    /// Takes the next byte, and waits for it if none is at hand. None at the end of the input.
    pub fn next<H: Wait>(&mut self, rt: &H) -> Option<u8>
        ensures at_hand { IsSome (byte_at_hand self.old) → (result ≡ byte_at_hand self.old) × IsPassed self.old self.new }
        ensures taken { IfSome result (Takes self.old self.new) }
        ensures ended { IfNone result (byte_at_hand self.old ≡ None) }
    {
        for _ in rt.forever() {
            if let Some(byte) = self.at_hand() {
                self.skip();
                return Some(byte);
            }
            match self.pieces.recv(rt) {
                Ok(Piece::Bytes(piece)) => self.begin(piece),
                Ok(Piece::Lost(fault)) => {
                    self.lost = Some(fault);
                    return None;
                }
                Err(_) => return None,
            }
        }
        unreachable!()
    }

    /// What comes next. Nothing is taken.
    pub fn peek<H: Wait>(&mut self, rt: &H) -> Coming
        ensures at_hand { IsSome (byte_at_hand self.old) → self.new ≡ self.old }
        ensures comes { Comes self.old self.new result }
    {
        if let Some(byte) = self.at_hand() {
            return Coming::Byte(byte);
        }
        match self.pieces.try_recv(rt) {
            Ok(Piece::Bytes(piece)) => {
                self.begin(piece);
                match self.at_hand() {
                    Some(byte) => Coming::Byte(byte),
                    None => Coming::Nothing,
                }
            }
            Ok(Piece::Lost(fault)) => {
                self.lost = Some(fault);
                Coming::End
            }
            Err(TryRecvError::Empty) => Coming::Nothing,
            Err(TryRecvError::Disconnected) => Coming::End,
        }
    }

    /// Passes over the byte that comes next, if it is at hand.
    pub fn skip(&mut self)
        ensures { IsSome (byte_at_hand self.old) → IsPassed self.old self.new }
    {
        self.taken = self.taken.saturating_add(1);
    }

    /// The byte that comes next, if it is at hand.
    fn at_hand(&self) -> Option<u8>
        ensures { result ≡ byte_at_hand self.now }
    {
        self.piece.get(self.taken).copied()
    }

    /// Begins a piece.
    fn begin(&mut self, piece: Vec<u8>)
        ensures { self.new ≡ record self.old { piece = piece; taken = 0 } }
    {
        self.piece = piece;
        self.taken = 0;
    }
}

/// Reads the input to its end and sends it piece by piece, as long as somebody takes the pieces.
pub(crate) fn read_all<H: Wait, R: Read>(
    rt: &H,
    alloc: Global,
    input: &mut R,
    pieces: Sender<Piece, Global>,
) {
    let mut room = [0u8; PIECE];
    for _ in rt.forever() {
        let piece = match input.read(&mut room) {
            Ok(0) => return,
            Ok(count) => piece_of(alloc, &room[..count]),
            Err(error) if error.kind() == ErrorKind::Interrupted => continue,
            Err(_) => Piece::Lost(ReadFault::ReadFailed),
        };
        let is_last = matches!(piece, Piece::Lost(_));
        if pieces.send(rt, piece).is_err() || is_last {
            return;
        }
    }
}

/// A piece with these bytes.
fn piece_of(alloc: Global, bytes: &[u8]) -> Piece {
    match Vec::from_slice(alloc, bytes) {
        Ok(bytes) => Piece::Bytes(bytes),
        Err(refused) => Piece::Lost(ReadFault::from(refused)),
    }
}
