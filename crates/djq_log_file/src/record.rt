ghost use Rattle.std.specs.Prelude.{◌≡◌, ◌≤◌, length, drop, true};
ghost use Rattle.djq_disk.specs.History.{WhereHistoryTold};
ghost use Rattle.djq_log_file.specs.Window.{ReadsThrough};
ghost use Rattle.djq_log_file.specs.Entries.{StandsAtGate, GateFits, CountsFound};

use crate::body::{Body, read_body};
use crate::damage::Damage;
use crate::head::{Head, read_head};
use crate::window::Window;
use djq_disk::Disk;

/// What is at a gate's place.
#[derive(Clone, Copy, Debug, PartialEq, Eq)]
pub(crate) enum Found {
    /// The closed gate that ends the list.
    End,
    /// The record of a group: the length of its body, and the digest after it.
    Group(u64, u64),
    /// Neither, for this reason.
    Bad(Damage),
    Failed,
}

/// Reads the whole record at a gate's place, which has to be one after this digest. The buffer changes.
pub(crate) fn read_record<D: Disk>(
    disk: &mut D,
    window: &mut Window,
    at: u64,
    digest: u64,
    buf: &mut [u8],
) -> Found
    requires is_open { D.is_open disk.old ≡ true }
    requires room { 65535 ≤ length buf.old }
    ensures is_open { D.is_open disk.new ≡ true }
    ensures told { WhereHistoryTold (D.told disk.old) (D.told disk.new)
        (ReadsThrough (λ bytes. StandsAtGate result digest (drop at bytes)) window.old window.new) }
    ensures fits { GateFits result at }
    ensures faults { CountsFound result (D.faults disk.old) (D.faults disk.new) }
{
    let (size, stored) = match read_head(disk, window, at) {
        Head::Record(size, stored) => (size, stored),
        Head::Closed => return Found::End,
        Head::Damaged(reason) => return Found::Bad(reason),
        Head::Failed => return Found::Failed,
    };
    match read_body(disk, window, at + 17, size, digest, buf) {
        Body::Lines(after) => {
            if after == stored {
                Found::Group(size, stored)
            } else {
                Found::Bad(Damage::Digest)
            }
        }
        Body::NoLines => Found::Bad(Damage::Lines),
        Body::Short => Found::Bad(Damage::Cut),
        Body::Failed => Found::Failed,
    }
}
