ghost use Rattle.std.specs.Prelude.{◌≡◌, true, []};
ghost use Rattle.djq_disk.specs.History.{WhereHistoryTold};
ghost use Rattle.djq_log.specs.Reading.{OpensLogLines, CountsLogFound};

use crate::end::LogEnd;
use crate::source::LogSource;
use djq_disk::Disk;
use djq_journal::Journal;
use djq_log_file::{LogMade, LogOpened, Window, create_log, open_log};

/// What was found in a file.
#[derive(Debug, Drop)]
pub enum LogFound {
    /// No log was begun there, and one without lines was made. It ends here.
    Made(LogEnd),
    /// A log, before its first line.
    Ready(LogSource),
    /// It is no log.
    Unknown,
    Failed,
}

/// Opens the log that the file of the disk is, or makes one if none was begun. The window was made for this disk, and
/// nothing was read through it yet.
pub fn find_log<D: Disk>(disk: &mut D, window: Window) -> LogFound
    requires is_open { D.is_open disk.old ≡ true }
    requires empty { window.held ≡ [] }
    ensures is_open { D.is_open disk.new ≡ true }
    ensures told { WhereHistoryTold (D.told disk.old) (D.told disk.new) (OpensLogLines result) }
    ensures faults { CountsLogFound result (D.faults disk.old) (D.faults disk.new) }
{
    match open_log(disk) {
        LogOpened::Unbegun => match create_log(disk) {
            LogMade::Made(writer) => LogFound::Made(LogEnd::Second(writer)),
            LogMade::Failed => LogFound::Failed,
        },
        LogOpened::First => LogFound::Ready(LogSource::First(Journal::first())),
        LogOpened::Second(reader) => LogFound::Ready(LogSource::Second(reader, window)),
        LogOpened::Unknown => LogFound::Unknown,
        LogOpened::Failed => LogFound::Failed,
    }
}
