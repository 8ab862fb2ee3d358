ghost use Rattle.std.specs.Prelude.{◌≡◌, ◌+◌, ◌*◌, ◌<◌, ◌≤◌, length, drop, true};
ghost use Rattle.djq_disk.specs.History.{WhereHistoryTold};
ghost use Rattle.djq_log_file.specs.Window.{ReadsThrough};
ghost use Rattle.djq_log_file.specs.Entries.{IsEntry, EntryFits, CountsEntry};

use crate::window::Window;
use djq_disk::{Disk, Filled};

/// What is at the place of an entry.
#[derive(Clone, Copy, Debug, PartialEq, Eq)]
pub(crate) enum Entry {
    /// So many bytes of the buffer are the line.
    Line(usize),
    /// No entry.
    NoLine,
    /// The file ends before the body does.
    Short,
    Failed,
}

/// The number that two bytes are, the greater one first.
fn number_of(high: u8, low: u8) -> usize
    ensures is { result ≡ high * 256 + low }
    ensures low { low < 256 }
    ensures most { result ≤ 65535 }
{
    high as usize * 256 + low as usize
}

/// Reads the line of the entry at the place into the start of the buffer, if it ends within so many bytes.
pub(crate) fn read_entry<D: Disk>(
    disk: &mut D,
    window: &mut Window,
    at: u64,
    left: u64,
    buf: &mut [u8],
) -> Entry
    requires is_open { D.is_open disk.old ≡ true }
    requires some { 1 ≤ left }
    requires room { 65535 ≤ length buf.old }
    ensures is_open { D.is_open disk.new ≡ true }
    ensures told { WhereHistoryTold (D.told disk.old) (D.told disk.new)
        (ReadsThrough (λ bytes. IsEntry result left buf.new (drop at bytes)) window.old window.new) }
    ensures fits { EntryFits result at left buf.new }
    ensures faults { CountsEntry result (D.faults disk.old) (D.faults disk.new) }
{
    if left < 3 {
        return Entry::NoLine;
    }
    let mut size = [0; 2];
    match window.fill(disk, at, &mut size) {
        Filled::Whole => {}
        Filled::Short => return Entry::Short,
        Filled::Failed => return Entry::Failed,
    }
    let n = number_of(size[0], size[1]);
    if n == 0 || left - 2 < n as u64 {
        return Entry::NoLine;
    }
    match window.fill(disk, at + 2, &mut buf[..n]) {
        Filled::Whole => Entry::Line(n),
        Filled::Short => Entry::Short,
        Filled::Failed => Entry::Failed,
    }
}
