//! A recorder that hashes the trace as turns are done.
ghost use Rattle.std.specs.Prelude.{◌≡◌, List, [], None, IfOk, OnOk};
ghost use Rattle.std.specs.String.{string_bytes};
ghost use Rattle.paged_memory.specs.Snapshot.{cells_of};
ghost use Rattle.run_digest.specs.Texts.{digest_text};
ghost use Rattle.tracer.specs.TraceText.{text_of as trace_text_of};

use crate::digest_text::write_digest;
use crate::memory_hash::memory_hash;
use commit::Patch;
use paged_memory::Snapshot;
use sha2::{Digest, Sha256};
use std::alloc::{AllocError, Global};
use token::{Recorder, RunOutcome, Turn, TurnFault};
use tracer::write_line;

/// Hashes the trace of a run turn by turn. The line of the last turn is made and hashed when the next one is
/// prepared, or at the end, so that telling a turn needs no memory.
#[derive(Drop)]
pub struct DigestRecorder {
    /// The hash of the lines that were made.
    trace: Sha256,
    /// The turn whose line isn't made yet.
    last: Option<Turn>,
    /// Where a line is made.
    line: String,
}

impl DigestRecorder {
    ghost use Rattle.run_digest.specs.Recording.{Digests, KeepsTold};
    ghost use Rattle.token.specs.declared.turn.Turn.{Turn as TurnRecord};

    /// A recorder that has recorded no turn.
    pub fn new(alloc: Global) -> Self
        ensures { Digests result [] }
    {
        DigestRecorder {
            trace: Sha256::new(),
            last: None,
            line: String::new(alloc),
        }
    }

    /// The lines of a run that ended so, with this output and this memory, and whose turns it has recorded.
    ///
    /// # Errors
    ///
    /// Only out of memory.
    pub fn finish(
        self,
        alloc: Global,
        outcome: RunOutcome,
        output: &[u8],
        memory: &Snapshot,
    ) -> Result<String, AllocError>
        ensures { IfOk result (λ text. (turns : List TurnRecord) → Digests self turns →
            string_bytes text ≡ digest_text outcome output.now (cells_of memory.now) (trace_text_of turns)) }
    {
        let mut recorder = self;
        recorder.make_line()?;
        let hash = memory_hash(alloc, memory)?;
        let mut text = String::new(alloc);
        write_digest(
            &mut text,
            outcome,
            &Sha256::digest(output),
            &hash,
            &recorder.trace.finalize(),
        )?;
        Ok(text)
    }

    /// Makes the line of the last turn, and hashes it.
    fn make_line(&mut self) -> Result<(), AllocError>
        ensures kept { KeepsTold self.old self.new }
        ensures made { OnOk result (self.new.last ≡ None) }
    {
        if let Some(turn) = self.last {
            self.line.clear();
            write_line(&mut self.line, &turn)?;
            self.trace.update(self.line.as_str());
            self.last = None;
        }
        Ok(())
    }
}

impl Recorder for DigestRecorder {
    ghost use Rattle.run_digest.specs.Recording.{Digests};

    ghost records = { λ recorder turns changes. Digests recorder turns };

    ghost is_ready = { λ recorder addresses. recorder.last ≡ None };

    ghost writes = { ⊥ };

    fn prepare(&mut self, _patch: Option<&Patch>) -> Result<(), TurnFault> {
        self.make_line()?;
        Ok(())
    }

    fn record(&mut self, turn: Turn) {
        self.last = Some(turn);
    }
}
