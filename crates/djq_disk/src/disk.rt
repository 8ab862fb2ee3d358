/// The answer to an open.
#[derive(Clone, Copy, Debug, PartialEq, Eq)]
pub enum DiskOpen {
    Ready,
    Failed,
}

/// The answer to a question for the length.
#[derive(Clone, Copy, Debug, PartialEq, Eq)]
pub enum DiskLen {
    /// So many bytes.
    Len(u64),
    Failed,
}

/// The answer to a read.
#[derive(Clone, Copy, Debug, PartialEq, Eq)]
pub enum DiskRead {
    /// The number of bytes read into the start of the buffer, at least 1.
    Got(usize),
    /// The file has no byte at that place.
    End,
    Failed,
}

/// The answer to a call that only does or fails, such as a write or a sync.
#[derive(Clone, Copy, Debug, PartialEq, Eq)]
pub enum DiskDid {
    Done,
    Failed,
}

/// A disk with one file, and a next one that is written beside it to replace it.
pub trait Disk {
    ghost use Rattle.std.specs.Prelude.{◌≡◌, ℕ, ◌+◌, ◌<◌, ◌≤◌, length, Option, Bool, true};
    ghost use Rattle.djq_disk.specs.History.{History, WhereHistoryTold, OpensPath, Opens, Sizes, DiskReads, FitsRead};
    ghost use Rattle.djq_disk.specs.History.{DiskWrites, Syncs, BeginsNext, WritesNext, SyncsNext, Replaces};
    ghost use Rattle.djq_disk.specs.DiskFaults.{CountsOpen, CountsLen, CountsDiskRead, CountsDid};

    // Its history, if the disk records one.
    ghost told: { Self → Option History };

    // Whether its file is open, which every disk shows.
    ghost is_open: { Self → Bool };

    // How many faults it has met.
    ghost faults: { Self → ℕ };

    /// Opens the file at the path, and creates it if it is absent. No other call may precede the open of a disk.
    fn open(&mut self, path: &str) -> DiskOpen
        ensures is_open { Opens result (is_open self.old) (is_open self.new) }
        ensures told { WhereHistoryTold (told self.old) (told self.new) (OpensPath path.now) }
        ensures faults { CountsOpen result (faults self.old) (faults self.new) };

    /// How many bytes the file has.
    fn len(&mut self) -> DiskLen
        requires { is_open self.old ≡ true }
        ensures is_open { is_open self.new ≡ true }
        ensures told { WhereHistoryTold (told self.old) (told self.new) (Sizes result) }
        ensures faults { CountsLen result (faults self.old) (faults self.new) };

    /// Reads some bytes from the place on into the start of the buffer. Past them the buffer may
    /// change too.
    fn read(&mut self, at: u64, buf: &mut [u8]) -> DiskRead
        requires is_open { is_open self.old ≡ true }
        requires room { 0 < length buf.old }
        ensures is_open { is_open self.new ≡ true }
        ensures fits { FitsRead result at buf.new }
        ensures told { WhereHistoryTold (told self.old) (told self.new) (DiskReads result at buf.new) }
        ensures faults { CountsDiskRead result (faults self.old) (faults self.new) };

    /// Writes the whole piece at the place.
    fn write_at(&mut self, at: u64, piece: &[u8]) -> DiskDid
        requires is_open { is_open self.old ≡ true }
        requires place { at + length piece.now ≤ 18446744073709551615 }
        ensures is_open { is_open self.new ≡ true }
        ensures told { WhereHistoryTold (told self.old) (told self.new) (DiskWrites result at piece.now) }
        ensures faults { CountsDid result (faults self.old) (faults self.new) };

    /// Waits until all that was written outlives a crash.
    fn sync(&mut self) -> DiskDid
        requires { is_open self.old ≡ true }
        ensures is_open { is_open self.new ≡ true }
        ensures told { WhereHistoryTold (told self.old) (told self.new) (Syncs result) }
        ensures faults { CountsDid result (faults self.old) (faults self.new) };

    /// Makes an empty next file beside the file, whatever was there.
    fn begin_next(&mut self) -> DiskDid
        requires { is_open self.old ≡ true }
        ensures is_open { is_open self.new ≡ true }
        ensures told { WhereHistoryTold (told self.old) (told self.new) (BeginsNext result) }
        ensures faults { CountsDid result (faults self.old) (faults self.new) };

    /// Writes the whole piece at the place of the next file.
    fn write_next(&mut self, at: u64, piece: &[u8]) -> DiskDid
        requires is_open { is_open self.old ≡ true }
        requires place { at + length piece.now ≤ 18446744073709551615 }
        ensures is_open { is_open self.new ≡ true }
        ensures told { WhereHistoryTold (told self.old) (told self.new) (WritesNext result at piece.now) }
        ensures faults { CountsDid result (faults self.old) (faults self.new) };

    /// Waits until all that was written to the next file outlives a crash.
    fn sync_next(&mut self) -> DiskDid
        requires { is_open self.old ≡ true }
        ensures is_open { is_open self.new ≡ true }
        ensures told { WhereHistoryTold (told self.old) (told self.new) (SyncsNext result) }
        ensures faults { CountsDid result (faults self.old) (faults self.new) };

    /// Replaces the file by the next one, at once: a crash leaves one of both. If it fails, either of both may be the
    /// file, and the next one is empty then or as it was.
    fn replace(&mut self) -> DiskDid
        requires { is_open self.old ≡ true }
        ensures is_open { is_open self.new ≡ true }
        ensures told { WhereHistoryTold (told self.old) (told self.new) (Replaces result) }
        ensures faults { CountsDid result (faults self.old) (faults self.new) };
}
