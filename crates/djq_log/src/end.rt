ghost use Rattle.std.specs.Prelude.{◌≡◌};

use djq_journal::Journal;
use djq_log_file::LogWriter;

/// The end of a log, at which the next group is appended.
#[derive(Debug, Drop)]
pub enum LogEnd {
    /// Of a log of the first format.
    First(Journal),
    /// Of one of the second.
    Second(LogWriter),
}
