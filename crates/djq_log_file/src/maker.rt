ghost use Rattle.std.specs.Prelude.{◌≡◌, ◌+◌, ◌*◌, ◌<◌, ◌≤◌, ◌∷◌, ℕ, length, true};
ghost use Rattle.std.specs.List.{AllByRecursion};
ghost use Rattle.djq_disk.specs.History.{WhereHistoryTold};
ghost use Rattle.djq_disk.specs.DiskFaults.{CountsDid};
ghost use Rattle.djq_log_format.specs.Encoding.{measured};
ghost use Rattle.djq_log_format.specs.Format.{record_body, content_of};
ghost use Rattle.djq_log_file.specs.Appending.{FitsLogLine};
ghost use Rattle.djq_log_file.specs.Laying.{LaysMore, end_of_gathering};
ghost use Rattle.djq_log_file.specs.Making.{BeginsLog, WritesBehind, PutsAfter, HasRoomToPut, MakesAfter};
ghost use Rattle.djq_log_file.specs.Making.{WritesNewLog, CreatesLog};
ghost use Rattle.djq_log_file.specs.Making.{CountsLogBegun, CountsGroupPut, CountsLogMade};
ghost use Rattle.djq_log_file.specs.declared.limits.TheConstants.{LAST_LOG_GATE};

use crate::appending::{measure, put_head, put_lines};
use crate::gathering::PieceWriter;
use crate::group::Group;
use crate::reader::SEED;
use crate::writer::LogWriter;
use djq_disk::{Disk, DiskDid};
use djq_log_format::Measure;
use std::marker::Model;

/// Whether a log was begun.
#[derive(Debug, Drop)]
pub enum LogBegun {
    /// No group was put yet.
    Begun(LogMaker),
    Failed,
}

/// The answer to a group that is put.
#[derive(Debug, Drop)]
pub enum GroupPut {
    /// The group is written, after those before it.
    Put(LogMaker),
    /// The disk failed. The file is of no use.
    Failed,
    /// The gate after the group would lie past the last place. Nothing was written.
    Full,
}

/// Whether a log was made.
#[derive(Debug, Drop)]
pub enum LogMade {
    /// It has all groups that were put, and outlives a crash from now on. It ends here.
    Made(LogWriter),
    Failed,
}

/// A log that is being made, record by record. It is none before it is finished.
#[derive(Debug, Drop)]
pub struct LogMaker {
    at: u64,
    digest: u64,
}

impl Model for LogMaker {
    ghost use Rattle.std.specs.Prelude.{◌≤◌};
    ghost use Rattle.djq_log_file.specs.Places.{LogEndPlace};
    ghost use Rattle.djq_log_file.specs.declared.limits.TheConstants.{LAST_LOG_GATE};

    ghost Value = { LogEndPlace };

    ghost view = { λ m. record { at = m.at; digest = m.digest } };

    ghost invariant = { λ m. m.at ≤ LAST_LOG_GATE };
}

/// Lays a record, its gate open.
fn put_record<D: Disk, G: Group>(
    writer: &mut PieceWriter,
    disk: &mut D,
    group: &G,
    measure: &Measure,
) -> DiskDid
    requires is_open { D.is_open disk.old ≡ true }
    requires lines { AllByRecursion FitsLogLine (G.lines group.now) }
    requires short { measure.now.size * 257 < 18446744073709551616 }
    requires place { end_of_gathering writer.old + 17 + length (record_body (G.lines group.now)) ≤ 18446744073709551615 }
    ensures is_open { D.is_open disk.new ≡ true }
    ensures told { (digest : ℕ) → measure.now ≡ measured digest (G.lines group.now)
        → WhereHistoryTold (D.told disk.old) (D.told disk.new)
        (LaysMore result (255 ∷ content_of digest (G.lines group.now)) writer.old writer.new) }
    ensures end { result ≡ DiskDid.Done
        → end_of_gathering writer.new ≡ end_of_gathering writer.old + 17 + length (record_body (G.lines group.now)) }
    ensures faults { CountsDid result (D.faults disk.old) (D.faults disk.new) }
{
    match writer.put(disk, &[255]) {
        DiskDid::Done => {}
        DiskDid::Failed => return DiskDid::Failed,
    }
    match put_head(writer, disk, measure) {
        DiskDid::Done => put_lines(writer, disk, group),
        DiskDid::Failed => DiskDid::Failed,
    }
}

/// Writes a record, its gate open, from this place on.
fn write_record<D: Disk, G: Group>(disk: &mut D, at: u64, group: &G, measure: &Measure) -> DiskDid
    requires is_open { D.is_open disk.old ≡ true }
    requires lines { AllByRecursion FitsLogLine (G.lines group.now) }
    requires short { measure.now.size * 257 < 18446744073709551616 }
    requires place { at + 17 + length (record_body (G.lines group.now)) ≤ 18446744073709551615 }
    ensures is_open { D.is_open disk.new ≡ true }
    ensures told { (digest : ℕ) → measure.now ≡ measured digest (G.lines group.now)
        → WhereHistoryTold (D.told disk.old) (D.told disk.new)
        (WritesBehind result at (255 ∷ content_of digest (G.lines group.now))) }
    ensures faults { CountsDid result (D.faults disk.old) (D.faults disk.new) }
{
    let mut writer = PieceWriter::new(at);
    match put_record(&mut writer, disk, group, measure) {
        DiskDid::Done => writer.flush(disk),
        DiskDid::Failed => DiskDid::Failed,
    }
}

impl LogMaker {
    /// Before the record at this place, after this digest.
    fn new(at: u64, digest: u64) -> Self
        requires { at ≤ LAST_LOG_GATE }
        ensures { result ≡ record { at = at; digest = digest } }
    {
        LogMaker { at, digest }
    }

    /// Begins a log in the file of the disk, whatever that has.
    pub fn begin<D: Disk>(disk: &mut D) -> LogBegun
        requires { D.is_open disk.old ≡ true }
        ensures is_open { D.is_open disk.new ≡ true }
        ensures told { WhereHistoryTold (D.told disk.old) (D.told disk.new) (BeginsLog result) }
        ensures faults { CountsLogBegun result (D.faults disk.old) (D.faults disk.new) }
    {
        match disk.write_at(0, b"DJQLOG2\n") {
            DiskDid::Done => LogBegun::Begun(LogMaker::new(8, SEED)),
            DiskDid::Failed => LogBegun::Failed,
        }
    }

    /// Writes a group of lines as one record, without a sync.
    ///
    /// The log is being made on this disk, and nothing else was written since. A caller whose disk records no history
    /// is bound by the same.
    pub fn put<D: Disk, G: Group>(self, disk: &mut D, group: &G) -> GroupPut
        requires is_open { D.is_open disk.old ≡ true }
        requires some { 1 ≤ length (G.lines group.now) }
        requires lines { AllByRecursion FitsLogLine (G.lines group.now) }
        ensures is_open { D.is_open disk.new ≡ true }
        ensures room { HasRoomToPut result self (G.lines group.now) }
        ensures told { WhereHistoryTold (D.told disk.old) (D.told disk.new) (PutsAfter result self (G.lines group.now)) }
        ensures faults { CountsGroupPut result (D.faults disk.old) (D.faults disk.new) }
    {
        match measure(self.at, self.digest, group) {
            None => GroupPut::Full,
            Some((end, measure)) => match write_record(disk, self.at, group, &measure) {
                DiskDid::Done => GroupPut::Put(LogMaker::new(end, measure.digest())),
                DiskDid::Failed => GroupPut::Failed,
            },
        }
    }

    /// Ends the log after the groups that were put, with one sync: it is a log from now on.
    pub fn finish<D: Disk>(self, disk: &mut D) -> LogMade
        requires { D.is_open disk.old ≡ true }
        ensures is_open { D.is_open disk.new ≡ true }
        ensures told { WhereHistoryTold (D.told disk.old) (D.told disk.new) (MakesAfter result self) }
        ensures faults { CountsLogMade result (D.faults disk.old) (D.faults disk.new) }
    {
        match disk.write_at(self.at, &[0]) {
            DiskDid::Done => match disk.sync() {
                DiskDid::Done => LogMade::Made(LogWriter::new(self.at, self.digest)),
                DiskDid::Failed => LogMade::Failed,
            },
            DiskDid::Failed => LogMade::Failed,
        }
    }
}

/// Writes a log without groups beside the file of the disk, and syncs it.
fn write_new_log<D: Disk>(disk: &mut D) -> DiskDid
    requires { D.is_open disk.old ≡ true }
    ensures is_open { D.is_open disk.new ≡ true }
    ensures told { WhereHistoryTold (D.told disk.old) (D.told disk.new) (WritesNewLog result) }
    ensures faults { CountsDid result (D.faults disk.old) (D.faults disk.new) }
{
    match disk.begin_next() {
        DiskDid::Done => {}
        DiskDid::Failed => return DiskDid::Failed,
    }
    match disk.write_next(0, b"DJQLOG2\n\0") {
        DiskDid::Done => disk.sync_next(),
        DiskDid::Failed => DiskDid::Failed,
    }
}

/// Creates a log without groups beside the file of the disk, and replaces the file by it at once. The file is to be
/// unbegun: what it has is lost.
pub fn create_log<D: Disk>(disk: &mut D) -> LogMade
    requires { D.is_open disk.old ≡ true }
    ensures is_open { D.is_open disk.new ≡ true }
    ensures told { WhereHistoryTold (D.told disk.old) (D.told disk.new) (CreatesLog result) }
    ensures faults { CountsLogMade result (D.faults disk.old) (D.faults disk.new) }
{
    match write_new_log(disk) {
        DiskDid::Done => match disk.replace() {
            DiskDid::Done => LogMade::Made(LogWriter::new(8, SEED)),
            DiskDid::Failed => LogMade::Failed,
        },
        DiskDid::Failed => LogMade::Failed,
    }
}
