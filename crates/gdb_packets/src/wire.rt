//! The bytes for gdb: the frames of answers, and acknowledgements.
ghost use Rattle.std.specs.Prelude.{◌≡◌, ◌++◌, [], OnOk, true, false};
ghost use Rattle.gdb_packets.specs.Frames.{frame_of};
ghost use Rattle.gdb_packets.specs.Wire.{IsPrinted, IsSaid, IsSent, Keeps, fits_answer, noted, printing, repeated, sent_of};

use crate::digits::write_bytes;
use crate::framing::frame;
use std::alloc::{AllocError, Global};
use std::mem;

/// How many bytes of the program's output a packet has at most.
const OUTPUT_LIMIT: usize = 0x1000;

/// How many bytes of what a command says its answer has at most. gdb has room for packets of twice as many.
const SAID_LIMIT: usize = 0x1f00;

/// The bytes for gdb that weren't taken yet.
#[derive(Drop)]
pub struct Wire {
    alloc: Global,
    pub(crate) out: Vec<u8>,
    /// The frame of the last answer.
    last: Vec<u8>,
    /// Whether packets are acknowledged.
    acknowledges: bool,
}

impl Wire {
    /// No bytes yet. Packets are acknowledged.
    pub fn new(alloc: Global) -> Self
        ensures none { sent_of result ≡ [] }
        ensures acknowledges { result.acknowledges ≡ true }
    {
        Wire {
            alloc,
            out: Vec::new(alloc),
            last: Vec::new(alloc),
            acknowledges: true,
        }
    }

    /// Answers with a packet of this text.
    pub fn answer(&mut self, text: &[u8]) -> Result<(), AllocError>
        ensures sent { OnOk result (sent_of self.new ≡ sent_of self.old ++ frame_of text.now) }
        ensures last { OnOk result (self.new.last.items ≡ frame_of text.now) }
        ensures keeps { Keeps self.old self.new }
    {
        self.last.clear();
        frame(self.alloc, text, &mut self.last)?;
        self.out.extend_from_slice(self.last.as_slice())
    }

    /// Answers a command with what it has to say. The answer is the text if that isn't too long: gdb can be interrupted between
    /// two packets, and would take each later answer for the one before.
    pub fn answer_command(&mut self, text: &[u8]) -> Result<(), AllocError>
        ensures { OnOk result (IsSaid (fits_answer text.now) (sent_of self.old) text.now (sent_of self.new)) }
    {
        if !text.is_empty() && text.len() <= SAID_LIMIT {
            let mut answer = String::new(self.alloc);
            write_bytes(&mut answer, text)?;
            return self.answer(answer.as_bytes());
        }
        self.print(text)?;
        self.answer(b"OK")
    }

    /// Prints a text on the user's terminal, in packets of a bounded length.
    pub fn print(&mut self, text: &[u8]) -> Result<(), AllocError>
        ensures printed { OnOk result (IsPrinted (sent_of self.old) text.now (sent_of self.new)) }
        ensures keeps { Keeps self.old self.new }
    {
        let mut rest = text;
        while !rest.is_empty() {
            let (part, others) = rest.split_at(rest.len().min(OUTPUT_LIMIT));
            self.print_part(part)?;
            rest = others;
        }
        Ok(())
    }

    /// Prints a part of a text in one packet.
    fn print_part(&mut self, part: &[u8]) -> Result<(), AllocError>
        ensures sent { OnOk result (sent_of self.new ≡ sent_of self.old ++ printing part.now) }
        ensures keeps { Keeps self.old self.new }
    {
        let mut packet = String::from_str(self.alloc, "O")?;
        write_bytes(&mut packet, part)?;
        self.answer(packet.as_bytes())
    }

    /// Sends the last answer again, if packets are acknowledged.
    pub fn repeat(&mut self) -> Result<(), AllocError>
        ensures { OnOk result (IsSent self.old (repeated self.old) self.new) }
    {
        if self.acknowledges {
            self.out.extend_from_slice(self.last.as_slice())?;
        }
        Ok(())
    }

    /// Says that a packet came, if packets are acknowledged.
    pub fn acknowledge(&mut self) -> Result<(), AllocError>
        ensures { OnOk result (IsSent self.old (noted self.old 43) self.new) }
    {
        self.note(b'+')
    }

    /// Says that a packet has a wrong checksum, if packets are acknowledged.
    pub fn refuse(&mut self) -> Result<(), AllocError>
        ensures { OnOk result (IsSent self.old (noted self.old 45) self.new) }
    {
        self.note(b'-')
    }

    /// Acknowledges no packet from now on.
    pub fn stop_acknowledging(&mut self)
        ensures sent { sent_of self.new ≡ sent_of self.old }
        ensures rest { self.new ≡ record self.old { acknowledges = false } }
    {
        self.acknowledges = false;
    }

    /// The bytes that weren't taken yet, which are taken by this.
    pub fn take(&mut self) -> Vec<u8>
        ensures taken { result.items ≡ sent_of self.old }
        ensures none { sent_of self.new ≡ [] }
        ensures rest { self.new ≡ record self.old { out = self.new.out } }
    {
        mem::replace(&mut self.out, Vec::new(self.alloc))
    }

    /// Sends a byte, if packets are acknowledged.
    fn note(&mut self, byte: u8) -> Result<(), AllocError>
        ensures { OnOk result (IsSent self.old (noted self.old byte) self.new) }
    {
        if self.acknowledges {
            self.out.push(byte)?;
        }
        Ok(())
    }
}
