// A sink over a writer.
ghost use Rattle.std.specs.Prelude.{◌≡◌, None};
ghost use Rattle.std.specs.Bool.{OnTrue};
ghost use Rattle.std.specs.Io.KnownBytes.{Appends};

use crate::faults::PutFault;
use crate::sink::Sink;
use std::io::Write;
use std::marker::Model;

/// A sink that hands each piece to a writer. It tells no bytes and wants no memory; to a contract it is
/// its count of faults.
#[derive(Drop)]
pub struct WriteSink<W: Write> {
    writer: W,
    faults: u64,
}

impl<W: Write> Model for WriteSink<W> {
    ghost use Rattle.std.specs.Prelude.{None};
    ghost use Rattle.policy_outside.specs.Sink.{SinkView};

    ghost Value = { SinkView };

    ghost view = { λ s. record { bytes = None; faults = s.faults; shortages = 0 } };
}

impl<W: Write> WriteSink<W> {
    /// A sink over `writer` with no faults yet. Takes no memory.
    pub fn new(writer: W) -> WriteSink<W>
        ensures { result ≡ record { bytes = None; faults = 0; shortages = 0 } }
    {
        WriteSink { writer, faults: 0 }
    }
}

impl<W: Write> Sink for WriteSink<W> {
    ghost seen = { λ s. s };

    /// Writes the piece, in as many writes as the writer needs. A failed write, and one that takes nothing
    /// of what is left, is a fault. Never answers `Memory`.
    fn put(&mut self, piece: &[u8]) -> Result<(), PutFault> {
        if write_whole(&mut self.writer, piece) {
            return Ok(());
        }
        self.faults = self.faults.saturating_add(1);
        Err(PutFault::Failed)
    }
}

/// Whether the writer took the whole piece.
fn write_whole<W: Write>(writer: &mut W, piece: &[u8]) -> bool
    ensures { OnTrue result (Appends (W.contents writer.old) (W.contents writer.new) piece.now) }
{
    let mut rest = piece;
    while !rest.is_empty() {
        let Ok(taken) = writer.write(rest) else {
            return false;
        };
        if taken == 0 {
            return false;
        }
        rest = &rest[taken..];
    }
    true
}
