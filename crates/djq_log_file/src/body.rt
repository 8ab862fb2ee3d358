ghost use Rattle.std.specs.Prelude.{◌≡◌, ◌≤◌, length, drop, true};
ghost use Rattle.djq_disk.specs.History.{WhereHistoryTold};
ghost use Rattle.djq_log_file.specs.Window.{ReadsThrough};
ghost use Rattle.djq_log_file.specs.Entries.{IsBody, CountsBody};

use crate::entry::{Entry, read_entry};
use crate::window::Window;
use djq_disk::Disk;
use djq_log_format::Measure;

/// What is at the place of a body.
#[derive(Clone, Copy, Debug, PartialEq, Eq)]
pub(crate) enum Body {
    /// Lines, after which this is the digest.
    Lines(u64),
    /// No lines have a body of this length.
    NoLines,
    /// The file ends before the body does.
    Short,
    Failed,
}

/// Reads the body of this length at the place, entry by entry, for its digest. The buffer changes.
pub(crate) fn read_body<D: Disk>(
    disk: &mut D,
    window: &mut Window,
    at: u64,
    size: u64,
    digest: u64,
    buf: &mut [u8],
) -> Body
    requires is_open { D.is_open disk.old ≡ true }
    requires room { 65535 ≤ length buf.old }
    ensures is_open { D.is_open disk.new ≡ true }
    ensures told { WhereHistoryTold (D.told disk.old) (D.told disk.new)
        (ReadsThrough (λ bytes. IsBody result digest size (drop at bytes)) window.old window.new) }
    ensures faults { CountsBody result (D.faults disk.old) (D.faults disk.new) }
{
    let mut measure = Measure::new(digest);
    let mut done = 0;
    while done < size {
        match read_entry(disk, window, at + done, size - done, buf) {
            Entry::Line(n) => {
                measure.add(&buf[..n]);
                done += 2 + n as u64;
            }
            Entry::NoLine => return Body::NoLines,
            Entry::Short => return Body::Short,
            Entry::Failed => return Body::Failed,
        }
    }
    Body::Lines(measure.digest())
}
