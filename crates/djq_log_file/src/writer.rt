ghost use Rattle.std.specs.Prelude.{◌≡◌, ◌≤◌, length, true};
ghost use Rattle.std.specs.List.{AllByRecursion};
ghost use Rattle.djq_disk.specs.History.{WhereHistoryTold};
ghost use Rattle.djq_log_file.specs.Appending.{FitsLogLine, AppendsAfter, HasRoomToAppend, CountsLogAppended};

use crate::appending::{append_at, measure};
use crate::group::Group;
use djq_disk::{Disk, DiskDid};
use std::marker::Model;

/// The answer to an append.
#[derive(Debug, Drop)]
pub enum LogAppended {
    /// The group is in the log, and outlives a crash from now on. The log ends after it.
    Done(LogWriter),
    /// The disk failed. A crash leaves the whole group or nothing of it.
    Failed,
    /// The gate after the group would lie past the last place. Nothing was written.
    Full,
}

/// The end of a log: the place of the gate that ends it, at which the next group is appended.
#[derive(Debug, Drop)]
pub struct LogWriter {
    at: u64,
    digest: u64,
}

impl Model for LogWriter {
    ghost use Rattle.djq_log_file.specs.Places.{LogEndPlace};

    ghost Value = { LogEndPlace };

    ghost view = { λ w. record { at = w.at; digest = w.digest } };
}

impl LogWriter {
    /// At this gate, after this digest.
    pub(crate) fn new(at: u64, digest: u64) -> Self
        ensures { result ≡ record { at = at; digest = digest } }
    {
        LogWriter { at, digest }
    }

    /// The place of the gate that ends the log, in bytes.
    pub fn place(&self) -> u64
        ensures { result ≡ self.now.at }
    {
        self.at
    }

    /// Appends a group of lines as a whole, with two syncs however many they are.
    ///
    /// The log of this disk ends here: [`next_line`](crate::LogReader::next_line) answered so, or an append did, and
    /// nothing was written since. A caller whose disk records no history is bound by the same.
    pub fn append<D: Disk, G: Group>(self, disk: &mut D, group: &G) -> LogAppended
        requires is_open { D.is_open disk.old ≡ true }
        requires some { 1 ≤ length (G.lines group.now) }
        requires lines { AllByRecursion FitsLogLine (G.lines group.now) }
        ensures is_open { D.is_open disk.new ≡ true }
        ensures room { HasRoomToAppend result self (G.lines group.now) }
        ensures told { WhereHistoryTold (D.told disk.old) (D.told disk.new) (AppendsAfter result self (G.lines group.now)) }
        ensures faults { CountsLogAppended result (D.faults disk.old) (D.faults disk.new) }
    {
        match measure(self.at, self.digest, group) {
            None => LogAppended::Full,
            Some((end, measure)) => {
                match append_at(disk, self.at, self.digest, group, &measure) {
                    DiskDid::Done => LogAppended::Done(LogWriter::new(end, measure.digest())),
                    DiskDid::Failed => LogAppended::Failed,
                }
            }
        }
    }
}
