ghost use Rattle.std.specs.Prelude.{◌≡◌, drop, true};
ghost use Rattle.djq_disk.specs.History.{WhereHistoryTold};
ghost use Rattle.djq_log_file.specs.Window.{ReadsThrough};
ghost use Rattle.djq_log_file.specs.Entries.{IsRecordHead, RecordHeadFits, CountsRecordHead};

use crate::damage::Damage;
use crate::window::Window;
use djq_disk::{Disk, Filled};
use djq_log_format::{decode_digest, decode_length};

/// What is at a gate's place, as far as the head of a record shows.
#[derive(Clone, Copy, Debug, PartialEq, Eq)]
pub(crate) enum Head {
    /// A closed gate.
    Closed,
    /// An open gate, the length of a body, and the digest after it.
    Record(u64, u64),
    /// Neither.
    Damaged(Damage),
    Failed,
}

/// Reads the gate at the place, and the head of the record after it.
pub(crate) fn read_head<D: Disk>(disk: &mut D, window: &mut Window, at: u64) -> Head
    requires { D.is_open disk.old ≡ true }
    ensures is_open { D.is_open disk.new ≡ true }
    ensures told { WhereHistoryTold (D.told disk.old) (D.told disk.new)
        (ReadsThrough (λ bytes. IsRecordHead result (drop at bytes)) window.old window.new) }
    ensures fits { RecordHeadFits result at }
    ensures faults { CountsRecordHead result (D.faults disk.old) (D.faults disk.new) }
{
    let mut gate = [0];
    match window.fill(disk, at, &mut gate) {
        Filled::Whole => {}
        Filled::Short => return Head::Damaged(Damage::Cut),
        Filled::Failed => return Head::Failed,
    }
    if gate[0] == 0 {
        return Head::Closed;
    }
    let mut length = [0; 8];
    match window.fill(disk, at + 1, &mut length) {
        Filled::Whole => {}
        Filled::Short => return Head::Damaged(Damage::Cut),
        Filled::Failed => return Head::Failed,
    }
    let size = match decode_length(&length) {
        Some(size) => size,
        None => return Head::Damaged(Damage::Length),
    };
    if size == 0 {
        return Head::Damaged(Damage::Length);
    }
    let mut digest = [0; 8];
    match window.fill(disk, at + 9, &mut digest) {
        Filled::Whole => Head::Record(size, decode_digest(&digest)),
        Filled::Short => Head::Damaged(Damage::Cut),
        Filled::Failed => Head::Failed,
    }
}
