ghost use Rattle.std.specs.Prelude.{◌≡◌, ◌≤◌, ℕ, List, length, true};
ghost use Rattle.djq_disk.specs.History.{WhereHistoryTold};
ghost use Rattle.djq_log_format.specs.Format.{seed};
ghost use Rattle.djq_log_file.specs.Window.{ReadsThrough};
ghost use Rattle.djq_log_file.specs.Entries.{CountsFound};
ghost use Rattle.djq_log_file.specs.Standing.{HasRead, ReadsLine, EntersRecord, EntersFits, LogLineFits, CountsLogLine};
ghost use Rattle.djq_log_file.specs.Standing.{ReadsOnward};

use crate::damage::Damage;
use crate::entry::{Entry, read_entry};
use crate::record::{Found, read_record};
use crate::window::Window;
use crate::writer::LogWriter;
use djq_disk::Disk;
use std::marker::Model;

/// The digest before the first record.
pub(crate) const SEED: u64 = 1_442_695_040_888_963_407;

/// The answer to a question for the next line.
#[derive(Debug, Drop)]
pub enum LogLine {
    /// So many bytes of the buffer are the line.
    Got(usize),
    /// There is no further line: the log ends here.
    End(LogWriter),
    /// The log is bad at this gate, for this reason. All lines before it were read.
    Damaged(u64, Damage),
    Failed,
}

/// A reader of a log: the place of the next gate or the next line.
#[derive(Debug, Drop)]
pub struct LogReader {
    at: u64,
    left: u64,
    digest: u64,
    gate: u64,
}

impl Model for LogReader {
    ghost use Rattle.djq_log_file.specs.Places.{ReadingPlace};

    ghost Value = { ReadingPlace };

    ghost view = { λ r. record { at = r.at; left = r.left; digest = r.digest; gate = r.gate } };
}

impl LogReader {
    /// At the first gate.
    pub(crate) fn first() -> Self
        ensures { result ≡ record { at = 8; left = 0; digest = seed; gate = 8 } }
    {
        LogReader {
            at: 8,
            left: 0,
            digest: SEED,
            gate: 8,
        }
    }

    /// The place of the gate of the record that the last line was read from, in bytes.
    pub fn gate(&self) -> u64
        ensures { result ≡ self.now.gate }
    {
        self.gate
    }

    /// Enters the next line of the record, or the record at the gate, all of which is read before its first line.
    fn enter<D: Disk>(&mut self, disk: &mut D, window: &mut Window, buf: &mut [u8]) -> Found
        requires is_open { D.is_open disk.old ≡ true }
        requires room { 65535 ≤ length buf.old }
        ensures is_open { D.is_open disk.new ≡ true }
        ensures told { WhereHistoryTold (D.told disk.old) (D.told disk.new)
            (ReadsThrough (λ file. (lines : List (List ℕ)) → HasRead lines self.old file → EntersRecord result lines self.new file)
            window.old window.new) }
        ensures fits { EntersFits result self.new }
        ensures onward { self.old.at ≤ self.new.at }
        ensures faults { CountsFound result (D.faults disk.old) (D.faults disk.new) }
    {
        if self.left != 0 {
            return Found::Group(self.left, self.digest);
        }
        match read_record(disk, window, self.at, self.digest, buf) {
            Found::Group(size, digest) => {
                self.gate = self.at;
                self.at += 17;
                self.left = size;
                self.digest = digest;
                Found::Group(size, digest)
            }
            Found::End => Found::End,
            Found::Bad(reason) => Found::Bad(reason),
            Found::Failed => Found::Failed,
        }
    }

    /// Reads the next line of the record, of which some is left.
    fn read_line<D: Disk>(&mut self, disk: &mut D, window: &mut Window, buf: &mut [u8]) -> LogLine
        requires is_open { D.is_open disk.old ≡ true }
        requires some { 1 ≤ self.old.left }
        requires room { 65535 ≤ length buf.old }
        ensures is_open { D.is_open disk.new ≡ true }
        ensures told { WhereHistoryTold (D.told disk.old) (D.told disk.new)
            (ReadsThrough (λ file. (lines : List (List ℕ)) → HasRead lines self.old file
            → ReadsLine result lines self.new buf.new file) window.old window.new) }
        ensures fits { LogLineFits result buf.new }
        ensures onward { ReadsOnward result self.old.at self.new.at }
        ensures faults { CountsLogLine result (D.faults disk.old) (D.faults disk.new) }
    {
        match read_entry(disk, window, self.at, self.left, buf) {
            Entry::Line(n) => {
                self.at += 2 + n as u64;
                self.left -= 2 + n as u64;
                LogLine::Got(n)
            }
            Entry::NoLine => LogLine::Damaged(self.at, Damage::Lines),
            Entry::Short => LogLine::Damaged(self.at, Damage::Cut),
            Entry::Failed => LogLine::Failed,
        }
    }

    /// Reads the next line into the start of the buffer, which has room for 65,535 bytes. A record is read whole, and
    /// its digest compared, before its first line is.
    ///
    /// The window is over the same file, which nothing was written to since the window was made.
    pub fn next_line<D: Disk>(
        &mut self,
        disk: &mut D,
        window: &mut Window,
        buf: &mut [u8],
    ) -> LogLine
        requires is_open { D.is_open disk.old ≡ true }
        requires room { 65535 ≤ length buf.old }
        ensures is_open { D.is_open disk.new ≡ true }
        ensures told { WhereHistoryTold (D.told disk.old) (D.told disk.new)
            (ReadsThrough (λ file. (lines : List (List ℕ)) → HasRead lines self.old file
            → ReadsLine result lines self.new buf.new file) window.old window.new) }
        ensures fits { LogLineFits result buf.new }
        ensures onward { ReadsOnward result self.old.at self.new.at }
        ensures faults { CountsLogLine result (D.faults disk.old) (D.faults disk.new) }
    {
        match self.enter(disk, window, buf) {
            Found::Group(_, _) => self.read_line(disk, window, buf),
            Found::End => LogLine::End(LogWriter::new(self.at, self.digest)),
            Found::Bad(reason) => LogLine::Damaged(self.at, reason),
            Found::Failed => LogLine::Failed,
        }
    }
}
