ghost use Rattle.std.specs.Prelude.{◌≡◌, ◌<◌, [], ◌∷◌, length, Some};
ghost use Rattle.djq_io.specs.Sink.{Gains, TakesPart, CountsWrite};
ghost use Rattle.djq_system.specs.StdSink.{CountsOneWrite};

use crate::notes::Notes;
use djq_io::{Sink, Wrote};
use std::io;
use std::marker::Model;

/// A writer of `std::io` as a sink, seen as its writes with their answers and its count of faults.
///
/// Each write is one write of the writer and a flush, so that who waits for a reply sees it. What
/// fails is counted and not tried again; a write that accepts nothing of a piece is a fault too.
#[derive(Debug, Drop)]
pub struct StdSink<W: io::Write + Drop> {
    writer: W,
    faults: u64,
    notes: Notes,
}

impl<W: io::Write + Drop> Model for StdSink<W> {
    ghost use Rattle.std.specs.Prelude.{map};
    ghost use Rattle.djq_system.specs.StdSink.{ShownByWriter, write_noted};

    ghost Value = { ShownByWriter };

    ghost view = { λ s. record { writes = map write_noted s.notes.calls; faults = s.faults } };
}

impl<W: io::Write + Drop> StdSink<W> {
    /// A sink over the writer, which nothing was written to yet.
    pub fn new(writer: W) -> Self
        ensures { result ≡ record { writes = []; faults = 0 } }
    {
        StdSink {
            writer,
            faults: 0,
            notes: Notes::new(),
        }
    }
}

impl<W: io::Write + Drop> Sink for StdSink<W> {
    ghost use Rattle.std.specs.Prelude.{Some};

    ghost told = { λ s. Some s.writes };

    ghost faults = { λ s. s.faults };

    fn write(&mut self, piece: &[u8]) -> Wrote
        requires { 0 < length piece.now }
        ensures takes { TakesPart result piece.now }
        ensures told { Gains (Some self.old.writes) (Some self.new.writes)
            (record { piece = piece.now; answer = result } ∷ []) }
        ensures faults { CountsWrite result self.old.faults self.new.faults }
        ensures one { CountsOneWrite result self.old.faults self.new.faults }
    {
        match self.writer.write(piece) {
            Ok(n) if 0 < n && self.writer.flush().is_ok() => {
                self.notes.note(&[n as u64], piece);
                Wrote::Took(n)
            }
            _ => {
                self.notes.note(&[], piece);
                self.faults = self.faults.saturating_add(1);
                Wrote::Failed
            }
        }
    }
}
