ghost use Rattle.std.specs.Prelude.{◌≡◌, ◌<◌, [], ◌∷◌, ◌++◌, length, take, drop, Some, OnOk, OnErr};
ghost use Rattle.djq_io.specs.Failing.{after_call, failed_count};
ghost use Rattle.djq_io.specs.Source.{SourceReads, CountsRead};
ghost use Rattle.djq_io.specs.MemSource.{source_reading, read_of, bytes_read};

use crate::failing::Failing;
use crate::recording::Recording;
use crate::source::{Read, Source};
use std::alloc::AllocError;
use std::marker::Model;

/// The place of a piece in the bytes of a source.
#[derive(Clone, Copy, Debug, Drop)]
struct Span {
    from: usize,
    to: usize,
}

/// Bytes in memory as a source. It shows everything.
///
/// A read gives as many bytes as the buffer has room for, and never more than a greatest number.
/// It fails only at the reads that were named to it ([`MemSource::fail_at`]). If a growth of its record of
/// the pieces is refused, it still gives the piece, and shows nothing from then on. What it gave is
/// removed from the bytes left in any case.
#[derive(Debug, Drop)]
pub struct MemSource {
    bytes: Vec<u8>,
    at: usize,
    most: usize,
    given: Recording<Span>,
    to_fail: Failing,
}

impl Model for MemSource {
    ghost use Rattle.std.specs.Prelude.{ℕ, ◌<◌, ◌≤◌, length, drop, map, slice_range};
    ghost use Rattle.std.specs.Option.{option_map};
    ghost use Rattle.djq_io.specs.MemSource.{MemSourceInside};

    ghost Value = { MemSourceInside };

    ghost view = { λ s. record {
      left = drop s.at s.bytes.items;
      given = option_map (map (λ span. slice_range s.bytes.items span.from span.to)) s.given;
      most = s.most;
      to_fail = s.to_fail;
    } };

    ghost invariant = { λ s. (s.at ≤ length s.bytes.items) × (0 < s.most) };
}

impl MemSource {
    /// A source of these bytes, of which a read gives at most so many.
    pub fn new(bytes: Vec<u8>, most: usize) -> Self
        requires { 0 < most }
        ensures { result ≡ record { left = bytes.items; given = Some []; most = most; to_fail = [] } }
    {
        let alloc = *bytes.allocator();
        MemSource {
            bytes,
            at: 0,
            most,
            given: Recording::new(alloc),
            to_fail: Failing::new(alloc),
        }
    }

    /// Adds a read that is to fail: 1 is the next one, 2 the one after it, and so on.
    pub fn fail_at(&mut self, read: u64) -> Result<(), AllocError>
        requires { 0 < read }
        ensures ok { OnOk result (self.new ≡ record self.old { to_fail = self.old.to_fail ++ read ∷ [] }) }
        ensures err { OnErr result (self.new ≡ self.old) }
    {
        self.to_fail.push(read)
    }
}

impl Source for MemSource {
    ghost told = { λ s. source_reading s };

    ghost faults = { λ s. failed_count s.to_fail };

    fn read(&mut self, buf: &mut [u8]) -> Read
        requires { 0 < length buf.old }
        ensures exact { result ≡ read_of self.old (length buf.old) }
        ensures reads { SourceReads result (source_reading self.old) (source_reading self.new) buf.new }
        ensures gives { take (bytes_read result) buf.new ≡ take (bytes_read result) self.old.left }
        ensures left { self.new.left ≡ drop (bytes_read result) self.old.left }
        ensures most { self.new.most ≡ self.old.most }
        ensures to_fail { self.new.to_fail ≡ after_call self.old.to_fail }
        ensures faults { CountsRead result (failed_count self.old.to_fail) (failed_count self.new.to_fail) }
    {
        if self.to_fail.count_down() {
            return Read::Failed;
        }
        let n = self.most.min(buf.len()).min(self.bytes.len() - self.at);
        if n == 0 {
            return Read::End;
        }
        let to = self.at + n;
        buf[..n].copy_from_slice(&self.bytes[self.at..to]);
        self.given.push(Span { from: self.at, to });
        self.at = to;
        Read::Got(n)
    }
}
