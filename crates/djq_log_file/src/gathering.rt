ghost use Rattle.std.specs.Prelude.{◌≡◌, ◌+◌, ◌≤◌, ◌++◌, [], length, true};
ghost use Rattle.djq_disk.specs.History.{WhereHistoryTold};
ghost use Rattle.djq_disk.specs.DiskFaults.{CountsDid};
ghost use Rattle.djq_log_format.specs.Format.{line_entry};
ghost use Rattle.djq_log_file.specs.Laying.{LaysMore, MovesEnd, end_of_gathering};
ghost use Rattle.djq_log_file.specs.declared.limits.TheConstants.{PIECE_BYTES};

use crate::limits::PIECE_BYTES;
use djq_disk::{Disk, DiskDid};
use std::marker::Model;

/// Bytes that are gathered, and written one piece after another.
#[derive(Debug, Drop)]
pub(crate) struct PieceWriter {
    buf: [u8; PIECE_BYTES],
    filled: usize,
    at: u64,
}

impl Model for PieceWriter {
    ghost use Rattle.std.specs.Prelude.{◌≡◌, ◌≤◌, length, take};
    ghost use Rattle.djq_log_file.specs.Laying.{Gathering};

    ghost Value = { Gathering };

    ghost view = { λ w. record { at = w.at; gathered = take w.filled w.buf } };

    ghost invariant = { λ w. (length w.buf ≡ 65536) × (w.filled ≤ 65536) };
}

impl PieceWriter {
    /// From this place on.
    pub(crate) fn new(at: u64) -> Self
        ensures { result ≡ record { at = at; gathered = [] } }
    {
        PieceWriter {
            buf: [0; PIECE_BYTES],
            filled: 0,
            at,
        }
    }

    /// Gathers a piece for which there is room.
    fn gather(&mut self, piece: &[u8])
        requires { length self.old.gathered + length piece.now ≤ PIECE_BYTES }
        ensures { self.new ≡ record { at = self.old.at; gathered = self.old.gathered ++ piece.now } }
    {
        let end = self.filled + piece.len();
        self.buf[self.filled..end].copy_from_slice(piece);
        self.filled = end;
    }

    /// How many bytes more can be gathered.
    fn room(&self) -> usize
        ensures { result + length self.now.gathered ≡ PIECE_BYTES }
    {
        PIECE_BYTES - self.filled
    }

    /// Writes what is gathered.
    pub(crate) fn flush<D: Disk>(&mut self, disk: &mut D) -> DiskDid
        requires is_open { D.is_open disk.old ≡ true }
        requires place { end_of_gathering self.old ≤ 18446744073709551615 }
        ensures is_open { D.is_open disk.new ≡ true }
        ensures told { WhereHistoryTold (D.told disk.old) (D.told disk.new) (LaysMore result [] self.old self.new) }
        ensures end { MovesEnd result [] self.old self.new }
        ensures none { result ≡ DiskDid.Done → self.new.gathered ≡ [] }
        ensures faults { CountsDid result (D.faults disk.old) (D.faults disk.new) }
    {
        match disk.write_at(self.at, &self.buf[..self.filled]) {
            DiskDid::Done => {
                self.at += self.filled as u64;
                self.filled = 0;
                DiskDid::Done
            }
            DiskDid::Failed => DiskDid::Failed,
        }
    }

    /// Appends a piece to what was gathered.
    pub(crate) fn put<D: Disk>(&mut self, disk: &mut D, piece: &[u8]) -> DiskDid
        requires is_open { D.is_open disk.old ≡ true }
        requires short { length piece.now ≤ PIECE_BYTES }
        requires place { end_of_gathering self.old + length piece.now ≤ 18446744073709551615 }
        ensures is_open { D.is_open disk.new ≡ true }
        ensures told { WhereHistoryTold (D.told disk.old) (D.told disk.new) (LaysMore result piece.now self.old self.new) }
        ensures end { MovesEnd result piece.now self.old self.new }
        ensures faults { CountsDid result (D.faults disk.old) (D.faults disk.new) }
    {
        if piece.len() <= self.room() {
            self.gather(piece);
            return DiskDid::Done;
        }
        match self.flush(disk) {
            DiskDid::Done => {
                self.gather(piece);
                DiskDid::Done
            }
            DiskDid::Failed => DiskDid::Failed,
        }
    }

    /// Lays the entry of a line.
    pub(crate) fn put_line<D: Disk>(&mut self, disk: &mut D, line: &[u8]) -> DiskDid
        requires is_open { D.is_open disk.old ≡ true }
        requires short { length line.now ≤ 65535 }
        requires place { end_of_gathering self.old + (2 + length line.now) ≤ 18446744073709551615 }
        ensures is_open { D.is_open disk.new ≡ true }
        ensures told { WhereHistoryTold (D.told disk.old) (D.told disk.new)
            (LaysMore result (line_entry line.now) self.old self.new) }
        ensures end { MovesEnd result (line_entry line.now) self.old self.new }
        ensures faults { CountsDid result (D.faults disk.old) (D.faults disk.new) }
    {
        let length = [(line.len() / 256) as u8, (line.len() % 256) as u8];
        match self.put(disk, &length) {
            DiskDid::Done => self.put(disk, line),
            DiskDid::Failed => DiskDid::Failed,
        }
    }
}
