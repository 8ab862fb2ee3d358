ghost use Rattle.std.specs.Prelude.{◌≡◌, ◌<◌, [], ◌∷◌, ◌++◌, length, Some, OnOk, OnErr, IfOk};
ghost use Rattle.std.specs.Option.{option_copied, option_map};
ghost use Rattle.djq_io.specs.Failing.{after_call, failed_count};
ghost use Rattle.djq_io.specs.Sink.{Gains, TakesPart, CountsWrite, part_taken, bytes_of};
ghost use Rattle.djq_io.specs.MemSink.{write_of};

use crate::failing::Failing;
use crate::piece::Piece;
use crate::recording::Recording;
use crate::sink::{Sink, Write, Wrote};
use std::alloc::{AllocError, Global};
use std::marker::Model;

/// A sink that stores the bytes written to it in memory, seen as its writes with their answers, or as `None`
/// after it has lost them, and the writes that are to fail. It accepts each piece whole.
///
/// It fails only at the writes that were named to it ([`MemSink::fail_at`]). If a growth of its record is
/// refused, it still accepts the piece, and shows nothing from then on.
#[derive(Debug, Drop)]
pub struct MemSink {
    taken: Vec<u8>,
    writes: Recording<Write>,
    to_fail: Failing,
}

impl Model for MemSink {
    ghost use Rattle.std.specs.Prelude.{◌≡◌, IfSome};
    ghost use Rattle.djq_io.specs.MemSink.{MemSinkInside};

    ghost Value = { MemSinkInside };

    ghost use Rattle.djq_io.specs.Sink.{bytes_of};

    ghost view = { λ k. record { told = k.writes; to_fail = k.to_fail } };

    ghost invariant = { λ k. IfSome k.writes (λ writes. k.taken.items ≡ bytes_of writes) };
}

impl MemSink {
    /// A sink that nothing was written to yet.
    pub fn new(alloc: Global) -> Self
        ensures { result ≡ record { told = Some []; to_fail = [] } }
    {
        MemSink {
            taken: Vec::new(alloc),
            writes: Recording::new(alloc),
            to_fail: Failing::new(alloc),
        }
    }

    /// The bytes that it accepted, or `None` after its record was lost.
    pub fn taken(&self) -> Option<&[u8]>
        ensures { option_copied result ≡ option_map bytes_of self.now.told }
    {
        match self.writes.items() {
            Some(_writes) => Some(self.taken.as_slice()),
            None => None,
        }
    }

    /// Its writes with their answers, or `None` after its record was lost.
    pub fn writes(&self) -> Option<&[Write]>
        ensures { option_copied result ≡ self.now.told }
    {
        self.writes.items()
    }

    /// Adds a write that is to fail: 1 is the next one, 2 the one after it, and so on.
    pub fn fail_at(&mut self, write: u64) -> Result<(), AllocError>
        requires { 0 < write }
        ensures ok { OnOk result (self.new ≡ record self.old { to_fail = self.old.to_fail ++ write ∷ [] }) }
        ensures err { OnErr result (self.new ≡ self.old) }
    {
        self.to_fail.push(write)
    }
}

/// A write and its answer, if there is memory for it. The bytes that it accepted are after those accepted before.
fn take(taken: &mut Vec<u8>, piece: &[u8], answer: Wrote) -> Result<Write, AllocError>
    requires { TakesPart answer piece.now }
    ensures write { IfOk result (λ write. write ≡ record { piece = piece.now; answer = answer }) }
    ensures taken { OnOk result (taken.new.items ≡ taken.old.items ++ part_taken answer piece.now) }
{
    let alloc = *taken.allocator();
    let copy = Piece::copy_of(alloc, piece)?;
    if let Wrote::Took(count) = answer {
        taken.extend_from_slice(&piece[..count])?;
    }
    Ok(Write {
        piece: copy,
        answer,
    })
}

impl Sink for MemSink {
    ghost told = { λ k. k.told };

    ghost faults = { λ k. failed_count k.to_fail };

    fn write(&mut self, piece: &[u8]) -> Wrote
        requires { 0 < length piece.now }
        ensures exact { result ≡ write_of self.old piece.now }
        ensures takes { TakesPart result piece.now }
        ensures told { Gains self.old.told self.new.told (record { piece = piece.now; answer = result } ∷ []) }
        ensures to_fail { self.new.to_fail ≡ after_call self.old.to_fail }
        ensures faults { CountsWrite result (failed_count self.old.to_fail) (failed_count self.new.to_fail) }
    {
        let answer = if self.to_fail.count_down() {
            Wrote::Failed
        } else {
            Wrote::Took(piece.len())
        };
        let write = take(&mut self.taken, piece, answer);
        self.writes.push_made(write);
        answer
    }
}
