ghost use Rattle.std.specs.Prelude.{◌≡◌, ◌<◌, ◌≤◌, length, true};
ghost use Rattle.djq_disk.specs.History.{WhereHistoryTold};
ghost use Rattle.djq_log_file.specs.Opening.{OpensLogFile, Identifies, CountsLogOpened};

use crate::reader::LogReader;
use djq_disk::{Disk, DiskDid, DiskLen, Filled, fill};

/// Which log a file is.
#[derive(Debug, Drop)]
pub enum LogOpened {
    /// It is empty, or has only a part of a header: no log was begun.
    Unbegun,
    /// It begins as a log of the first format.
    First,
    /// It begins as a log of the second one. The reader is at its first gate.
    Second(LogReader),
    /// It is none of these.
    Unknown,
    Failed,
}

/// Returns which log the file of up to 8 bytes is.
fn identify_short<D: Disk>(disk: &mut D, size: usize) -> LogOpened
    requires is_open { D.is_open disk.old ≡ true }
    requires few { size ≤ 8 }
    ensures is_open { D.is_open disk.new ≡ true }
    ensures told { WhereHistoryTold (D.told disk.old) (D.told disk.new)
        (λ o n. size ≡ length o.file.bytes → Identifies result o n) }
    ensures faults { CountsLogOpened result (D.faults disk.old) (D.faults disk.new) }
{
    let mut found = [0; 8];
    match fill(disk, 0, &mut found[..size]) {
        Filled::Whole => {}
        Filled::Short => return LogOpened::Unknown,
        Filled::Failed => return LogOpened::Failed,
    }
    if found[..size] == b"DJQLOG2\n"[..size] {
        LogOpened::Unbegun
    } else if found[..size] == b"DJQLOG1\n"[..size] {
        LogOpened::Unbegun
    } else {
        LogOpened::Unknown
    }
}

/// Returns which log the file of more bytes is.
fn identify_long<D: Disk>(disk: &mut D) -> LogOpened
    requires { D.is_open disk.old ≡ true }
    ensures is_open { D.is_open disk.new ≡ true }
    ensures told { WhereHistoryTold (D.told disk.old) (D.told disk.new)
        (λ o n. 8 < length o.file.bytes → Identifies result o n) }
    ensures faults { CountsLogOpened result (D.faults disk.old) (D.faults disk.new) }
{
    let mut found = [0; 8];
    match fill(disk, 0, &mut found) {
        Filled::Whole => {}
        Filled::Short => return LogOpened::Unknown,
        Filled::Failed => return LogOpened::Failed,
    }
    if found == *b"DJQLOG2\n" {
        LogOpened::Second(LogReader::first())
    } else if found == *b"DJQLOG1\n" {
        LogOpened::First
    } else {
        LogOpened::Unknown
    }
}

/// Returns which log the file of the disk is, after a sync.
pub fn open_log<D: Disk>(disk: &mut D) -> LogOpened
    requires { D.is_open disk.old ≡ true }
    ensures is_open { D.is_open disk.new ≡ true }
    ensures told { WhereHistoryTold (D.told disk.old) (D.told disk.new) (OpensLogFile result) }
    ensures faults { CountsLogOpened result (D.faults disk.old) (D.faults disk.new) }
{
    match disk.sync() {
        DiskDid::Done => {}
        DiskDid::Failed => return LogOpened::Failed,
    }
    match disk.len() {
        DiskLen::Len(size) => {
            if size <= 8 {
                identify_short(disk, size as usize)
            } else {
                identify_long(disk)
            }
        }
        DiskLen::Failed => LogOpened::Failed,
    }
}
