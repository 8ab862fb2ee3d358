ghost use Rattle.djq_io.specs.Written.{WritesAll, CountsWritten};

use crate::piece::Piece;

/// The answer to a write.
#[derive(Clone, Copy, Debug, PartialEq, Eq)]
pub enum Wrote {
    /// So many bytes from the start of the piece were accepted, at least 1.
    Took(usize),
    /// The write failed, and nothing was accepted.
    Failed,
}

/// A write, as a sink shows it: the piece that it was offered, and its answer.
#[derive(Debug, Drop)]
pub struct Write {
    pub piece: Piece,
    pub answer: Wrote,
}

/// The destination of bytes.
pub trait Sink {
    ghost use Rattle.std.specs.Prelude.{◌≡◌, ℕ, ◌<◌, List, [], ◌∷◌, length, Option};
    ghost use Rattle.djq_io.specs.Sink.{Gains, TakesPart, CountsWrite};
    ghost use Rattle.djq_io.specs.declared.sink.Write.{Write};

    // All writes so far with their answers, if the sink shows them.
    ghost told: { Self → Option (List Write) };

    // How many faults it has met.
    ghost faults: { Self → ℕ };

    /// Writes a first part of the piece.
    fn write(&mut self, piece: &[u8]) -> Wrote
        requires { 0 < length piece.now }
        ensures takes { TakesPart result piece.now }
        ensures told { Gains (told self.old) (told self.new) (record { piece = piece.now; answer = result } ∷ []) }
        ensures faults { CountsWrite result (faults self.old) (faults self.new) };
}

/// How much of a piece was written.
#[derive(Clone, Copy, Debug, PartialEq, Eq)]
pub enum Written {
    /// The whole piece.
    All,
    /// So many of its bytes, fewer than it has; then a write failed, and none followed.
    Failed(usize),
}

/// Writes the piece until all of it is accepted or a write failed. An empty piece is written at once.
pub fn write_all<K: Sink>(sink: &mut K, piece: &[u8]) -> Written
    ensures written { WritesAll result (K.told sink.old) (K.told sink.new) piece.now }
    ensures faults { CountsWritten result (K.faults sink.old) (K.faults sink.new) }
{
    let mut at = 0;
    while at < piece.len() {
        match sink.write(&piece[at..]) {
            Wrote::Took(n) => at += n,
            Wrote::Failed => return Written::Failed(at),
        }
    }
    Written::All
}
