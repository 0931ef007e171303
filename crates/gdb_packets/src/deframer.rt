//! Takes the bytes of gdb one by one, and says what each completes.
ghost use Rattle.std.specs.Prelude.{◌≡◌, ◌≢◌, ◌⊎◌, ◌∷◌, ◌++◌, [], ◌↔◌, IfOk, IsTrue};
ghost use Rattle.gdb_packets.specs.Frames.{Completes, IsFrame, IsSpoiled, IsSum, GoesOn, bytes_begun, heard_outside};

use crate::numbers::digit_of;
use crate::sums::checksum;
use std::alloc::{AllocError, Global};

/// How many bytes a frame has at most between its `$` and its `#`. A longer one is dropped.
pub const PACKET_LIMIT: usize = 0x4000;

/// What a byte completed.
#[derive(Clone, Copy, Debug, PartialEq, Eq)]
pub enum Heard {
    /// Nothing so far.
    Nothing,
    /// The other side has got the last answer.
    Acknowledged,
    /// The other side wants the last answer again.
    Refused,
    /// The byte 03 outside a frame.
    Interrupt,
    /// A frame whose checksum is right.
    Packet,
    /// A frame whose checksum is wrong.
    Spoiled,
    /// A frame with more than [`PACKET_LIMIT`] bytes, as soon as it has passed them.
    TooLong,
}

/// How much of a frame has been heard.
#[derive(Clone, Copy, Debug, PartialEq, Eq)]
enum FramePart {
    /// None of it.
    Outside,
    /// Its `$` and some bytes.
    Body,
    /// Its bytes and the `#`.
    Sharp,
    /// All but its last digit.
    Digit(u8),
}

/// What was heard of a frame so far.
#[derive(Drop)]
pub struct Deframer {
    /// The bytes between `$` and `#`, as they came.
    body: Vec<u8>,
    part: FramePart,
}

impl Deframer {
    /// One that has heard nothing. It takes the memory for all frames.
    pub fn new(alloc: Global) -> Result<Self, AllocError>
        ensures { IfOk result (λ deframer. bytes_begun deframer.body.items deframer.part ≡ []) }
    {
        Ok(Deframer {
            body: Vec::with_capacity(alloc, PACKET_LIMIT)?,
            part: FramePart::Outside,
        })
    }

    /// The bytes of the frame that was heard last, as they came, with their escapes.
    pub fn body(&self) -> &[u8]
        ensures { result.now ≡ self.now.body.items }
    {
        self.body.as_slice()
    }

    /// Takes the next byte.
    pub fn hear(&mut self, byte: u8) -> Heard
        ensures packet { result ≡ Heard.Packet
            → IsFrame (bytes_begun self.old.body.items self.old.part ++ byte ∷ []) self.new.body.items }
        ensures spoiled { result ≡ Heard.Spoiled
            → IsSpoiled (bytes_begun self.old.body.items self.old.part ++ byte ∷ []) self.new.body.items }
        ensures goes_on { result ≡ Heard.Nothing → bytes_begun self.new.body.items self.new.part ≢ []
            → GoesOn (bytes_begun self.old.body.items self.old.part) byte (bytes_begun self.new.body.items self.new.part) }
        ensures interrupt { result ≡ Heard.Interrupt → (byte ≡ 3) × (bytes_begun self.old.body.items self.old.part ≡ []) }
        ensures completes { Completes self.old.body.items self.old.part byte →
            (result ≡ Heard.Packet) × (self.new.body.items ≡ self.old.body.items) }
        ensures outside { self.old.part ≡ FramePart.Outside → result ≡ heard_outside byte }
        ensures begun { bytes_begun self.new.body.items self.new.part ≢ [] → result ≡ Heard.Nothing }
    {
        match self.part {
            FramePart::Outside => self.hear_outside(byte),
            FramePart::Body => self.hear_body(byte),
            FramePart::Sharp => {
                self.part = FramePart::Digit(byte);
                Heard::Nothing
            }
            FramePart::Digit(first) => {
                self.part = FramePart::Outside;
                self.judge(first, byte)
            }
        }
    }

    /// Takes a byte that is in no frame.
    fn hear_outside(&mut self, byte: u8) -> Heard
        requires { self.old.part ≡ FramePart.Outside }
        ensures other { (result ≢ Heard.Packet) × (result ≢ Heard.Spoiled) }
        ensures interrupt { result ≡ Heard.Interrupt → byte ≡ 3 }
        ensures begun { bytes_begun self.new.body.items self.new.part ≢ []
            → (byte ≡ 36) × (bytes_begun self.new.body.items self.new.part ≡ 36 ∷ []) }
        ensures heard { result ≡ heard_outside byte }
    {
        match byte {
            b'$' => {
                self.begin();
                Heard::Nothing
            }
            b'+' => Heard::Acknowledged,
            b'-' => Heard::Refused,
            3 => Heard::Interrupt,
            _ => Heard::Nothing,
        }
    }

    /// Takes a byte of a frame's body, or the one that ends it. A `$` begins another frame.
    fn hear_body(&mut self, byte: u8) -> Heard
        requires { self.old.part ≡ FramePart.Body }
        ensures other { (result ≢ Heard.Packet) × (result ≢ Heard.Spoiled) × (result ≢ Heard.Interrupt) }
        ensures goes_on { result ≡ Heard.Nothing → GoesOn (36 ∷ self.old.body.items) byte (bytes_begun self.new.body.items self.new.part) }
        ensures ended { (result ≡ Heard.Nothing) ⊎ (bytes_begun self.new.body.items self.new.part ≡ []) }
    {
        match byte {
            b'$' => {
                self.begin();
                Heard::Nothing
            }
            b'#' => {
                self.part = FramePart::Sharp;
                Heard::Nothing
            }
            _ => self.keep(byte),
        }
    }

    /// Begins a frame.
    fn begin(&mut self)
        ensures { bytes_begun self.new.body.items self.new.part ≡ 36 ∷ [] }
    {
        self.body.clear();
        self.part = FramePart::Body;
    }

    /// Keeps a byte of a frame's body, or drops the frame.
    fn keep(&mut self, byte: u8) -> Heard
        requires { self.old.part ≡ FramePart.Body }
        ensures kept { result ≡ Heard.Nothing → bytes_begun self.new.body.items self.new.part ≡ 36 ∷ (self.old.body.items ++ byte ∷ []) }
        ensures either { (result ≡ Heard.Nothing) ⊎ ((result ≡ Heard.TooLong) × (bytes_begun self.new.body.items self.new.part ≡ [])) }
    {
        if self.body.len() < PACKET_LIMIT && self.body.push(byte).is_ok() {
            return Heard::Nothing;
        }
        self.part = FramePart::Outside;
        Heard::TooLong
    }

    /// Judges a frame by its two digits.
    fn judge(&self, first: u8, second: u8) -> Heard
        ensures packet { result ≡ Heard.Packet → IsSum self.now.body.items first second }
        ensures spoiled { result ≡ Heard.Spoiled → IsSum self.now.body.items first second → ⊥ }
        ensures either { (result ≡ Heard.Packet) ⊎ (result ≡ Heard.Spoiled) }
    {
        let sum = checksum(self.body.as_slice());
        if digit_of(first) == Some(sum / 16) && digit_of(second) == Some(sum % 16) {
            Heard::Packet
        } else {
            Heard::Spoiled
        }
    }
}
