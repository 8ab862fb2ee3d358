ghost use Rattle.std.specs.Prelude.{◌≡◌, ◌+◌, ◌*◌, ◌<◌, ◌≤◌, ℕ, List, ◌++◌, length, drop, true};
ghost use Rattle.djq_disk.specs.History.{WhereHistoryTold};
ghost use Rattle.djq_journal.specs.Standing.{IsAtGate};
ghost use Rattle.djq_journal.specs.Calls.{JournalReads, LineFits, CountsLine};
ghost use Rattle.djq_journal.specs.Reading.{IsHead, HeadFits, CountsHead, place_after, EndsWithin};

use crate::limits::LINE_BYTES;
use crate::line::Line;
use djq_disk::{Disk, Filled, fill};

/// What is at a gate's place, as far as its head shows.
#[derive(Clone, Copy, Debug, PartialEq, Eq)]
pub(crate) enum Head {
    /// An open gate, and the length of a line.
    Open(usize),
    /// A gate that isn't open.
    Shut,
    /// Neither.
    Bad,
    Failed,
}

/// The number that two bytes are, the greater one first.
fn number_of(high: u8, low: u8) -> usize
    ensures is { result ≡ high * 256 + low }
    ensures low { low < 256 }
{
    high as usize * 256 + low as usize
}

/// Reads the head of a place.
pub(crate) fn read_head<D: Disk>(disk: &mut D, at: u64) -> Head
    requires { D.is_open disk.old ≡ true }
    ensures is_open { D.is_open disk.new ≡ true }
    ensures told { WhereHistoryTold (D.told disk.old) (D.told disk.new)
        (λ o n. IsHead result (drop at o.file.bytes) × (n ≡ o)) }
    ensures fits { HeadFits result at }
    ensures faults { CountsHead result (D.faults disk.old) (D.faults disk.new) }
{
    let mut gate = [0];
    match fill(disk, at, &mut gate) {
        Filled::Whole => {}
        Filled::Short => return Head::Bad,
        Filled::Failed => return Head::Failed,
    }
    if gate[0] != 1 {
        return Head::Shut;
    }
    let mut size = [0; 2];
    match fill(disk, at + 1, &mut size) {
        Filled::Whole => {}
        Filled::Short => return Head::Bad,
        Filled::Failed => return Head::Failed,
    }
    let n = number_of(size[0], size[1]);
    if n < 1 || LINE_BYTES < n {
        Head::Bad
    } else {
        Head::Open(n)
    }
}

/// Reads the line at a gate's place into the start of the buffer, which has room for any.
pub(crate) fn read_line<D: Disk>(disk: &mut D, gate: u64, buf: &mut [u8]) -> Line
    requires is_open { D.is_open disk.old ≡ true }
    requires room { LINE_BYTES ≤ length buf.old }
    ensures is_open { D.is_open disk.new ≡ true }
    ensures told { (lines : List (List ℕ)) → WhereHistoryTold (D.told disk.old) (D.told disk.new)
        (λ o n. (n ≡ o)
        × (IsAtGate lines gate o.file → JournalReads result lines gate (place_after gate result) buf.new o.file)) }
    ensures fits { LineFits result }
    ensures within { EndsWithin result gate }
    ensures faults { CountsLine result (D.faults disk.old) (D.faults disk.new) }
{
    let n = match read_head(disk, gate) {
        Head::Open(n) => n,
        Head::Shut => return Line::End,
        Head::Bad => return Line::BadLog(gate),
        Head::Failed => return Line::Failed,
    };
    match fill(disk, gate + 3, &mut buf[..n]) {
        Filled::Whole => Line::Got(n),
        Filled::Short => Line::BadLog(gate),
        Filled::Failed => Line::Failed,
    }
}

/// The place of a journal's gate after this answer.
pub(crate) fn place_after(gate: u64, line: Line) -> u64
    requires { EndsWithin line gate }
    ensures { result ≡ place_after gate line }
{
    match line {
        Line::Got(n) => gate + 3 + n as u64,
        Line::End | Line::BadLog(_) | Line::Failed => gate,
    }
}
