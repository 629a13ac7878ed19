//! `Sink`: takes the text of a report piece by piece, and refuses a piece that it can't write.

ghost use Rattle.std.specs.Prelude.{◌≡◌, true, false, OnOk, OnErr, IsOk, IsErr, MatchResult};
ghost use Rattle.std.specs.Io.KnownBytes.{Keeps};
ghost use Rattle.pdb_report_lib.specs.Sinks.{SinkState, Takes};

use std::io;

/// The error of a refused piece of text. It carries no reason: only the sink knows it.
#[derive(Debug, Clone, Copy)]
pub struct SinkFault;

/// Takes text piece by piece.
pub trait Sink {
    // The model of a sink: the bytes that it holds, if it shows them, and whether it refused a piece.
    ghost state: { Self → SinkState };

    /// Takes a whole piece of text, or refuses it. The sink may hold some bytes of a refused piece.
    fn put(&mut self, bytes: &[u8]) -> Result<(), SinkFault>
        ensures taken { OnOk result (Takes (state self.old) (state self.new) bytes.now) }
        ensures refused { OnErr result ((state self.new).failed ≡ true) };

    /// Whether the sink has refused a piece.
    fn failed(&self) -> bool
        ensures { result ≡ (state self.now).failed };
}

/// A sink that writes to a writer.
#[derive(Drop)]
pub struct Out<W: io::Write> {
    writer: W,
    refused: bool,
}

impl<W: io::Write> Out<W> {
    /// Makes a sink that writes to a writer.
    pub fn new(writer: W) -> Out<W>
        ensures { ⟦<Out<W> as Sink>⟧.state result ≡ record { held = W.contents writer; failed = false } }
    {
        Out {
            writer,
            refused: false,
        }
    }

    /// Flushes the writer.
    pub fn flush(&mut self) -> Result<(), SinkFault>
        ensures held { Keeps (⟦<Out<W> as Sink>⟧.state self.old).held (⟦<Out<W> as Sink>⟧.state self.new).held }
        ensures unchanged { OnOk result
            ((⟦<Out<W> as Sink>⟧.state self.new).failed ≡ (⟦<Out<W> as Sink>⟧.state self.old).failed) }
        ensures refused { OnErr result ((⟦<Out<W> as Sink>⟧.state self.new).failed ≡ true) }
    {
        let flushed = self.writer.flush();
        self.note(flushed)
    }

    // Converts the outcome of a write, and remembers a refusal.
    fn note(&mut self, outcome: io::Result<()>) -> Result<(), SinkFault>
        ensures { MatchResult result
            (λ _. IsOk outcome × (self.new ≡ self.old))
            (λ _. IsErr outcome × (self.new ≡ record self.old { refused = true })) }
    {
        match outcome {
            Ok(()) => Ok(()),
            Err(_) => {
                self.refused = true;
                Err(SinkFault)
            }
        }
    }

    /// Consumes the sink, and returns its writer.
    pub fn into_inner(self) -> W
        ensures { W.contents result ≡ (⟦<Out<W> as Sink>⟧.state self).held }
    {
        self.writer
    }
}

impl<W: io::Write> Sink for Out<W> {
    ghost state = { λ out. record { held = W.contents out.writer; failed = out.refused } };

    /// Writes all bytes of the piece.
    fn put(&mut self, bytes: &[u8]) -> Result<(), SinkFault> {
        let written = self.writer.write_all(bytes);
        self.note(written)
    }

    fn failed(&self) -> bool {
        self.refused
    }
}
