ghost use Rattle.std.specs.Prelude.{◌≡◌, ◌≤◌, ℕ, List, length, true};
ghost use Rattle.djq_disk.specs.History.{WhereHistoryTold};
ghost use Rattle.djq_log.specs.Reading.{HasReadLines, ReadsNext, NextLineFits, SourceGoesOn, CountsNextLine};

use crate::end::LogEnd;
use djq_disk::Disk;
use djq_journal::{Journal, Line};
use djq_log_file::{LogLine, LogReader, Window};

/// The lines of a log, as they are read one after another.
#[derive(Debug, Drop)]
pub enum LogSource {
    /// Of a log of the first format.
    First(Journal),
    /// Of one of the second, through a window.
    Second(LogReader, Window),
}

/// The answer to a question for the next line.
#[derive(Debug, Drop)]
pub enum NextLine {
    /// So many bytes of the buffer are the line. The gate of its record is at this place.
    Got(LogSource, usize, u64),
    /// There is no further line: the log ends here.
    End(LogEnd),
    /// The log is bad at this place.
    Bad(u64),
    Failed,
}

impl LogSource {
    /// Reads the next line into the start of the buffer, which has room for any.
    pub fn next_line<D: Disk>(self, disk: &mut D, buf: &mut [u8]) -> NextLine
        requires is_open { D.is_open disk.old ≡ true }
        requires room { 65535 ≤ length buf.old }
        ensures is_open { D.is_open disk.new ≡ true }
        ensures told { WhereHistoryTold (D.told disk.old) (D.told disk.new) (λ o n. (n ≡ o)
            × ((lines : List (List ℕ)) → HasReadLines lines self o.file → ReadsNext result lines buf.new o.file)) }
        ensures fits { NextLineFits result buf.new }
        ensures onward { SourceGoesOn result self }
        ensures faults { CountsNextLine result (D.faults disk.old) (D.faults disk.new) }
    {
        match self {
            LogSource::First(mut journal) => {
                let at = journal.place();
                match journal.next_line(disk, buf) {
                    Line::Got(n) => NextLine::Got(LogSource::First(journal), n, at),
                    Line::End => NextLine::End(LogEnd::First(journal)),
                    Line::BadLog(at) => NextLine::Bad(at),
                    Line::Failed => NextLine::Failed,
                }
            }
            LogSource::Second(mut reader, mut window) => {
                match reader.next_line(disk, &mut window, buf) {
                    LogLine::Got(n) => {
                        let at = reader.gate();
                        NextLine::Got(LogSource::Second(reader, window), n, at)
                    }
                    LogLine::End(writer) => NextLine::End(LogEnd::Second(writer)),
                    LogLine::Damaged(at, _reason) => NextLine::Bad(at),
                    LogLine::Failed => NextLine::Failed,
                }
            }
        }
    }
}
