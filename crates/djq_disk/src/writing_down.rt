ghost use Rattle.std.specs.Prelude.{◌≡◌, ◌+◌, ◌≤◌, length, true};
ghost use Rattle.djq_disk.specs.History.{WhereHistoryTold};
ghost use Rattle.djq_disk.specs.DiskFaults.{CountsDid};
ghost use Rattle.djq_disk.specs.WritingDown.{WritesDown};

use crate::disk::{Disk, DiskDid};

/// Writes the whole piece at the place and syncs.
pub fn write_down<D: Disk>(disk: &mut D, at: u64, piece: &[u8]) -> DiskDid
    requires is_open { D.is_open disk.old ≡ true }
    requires place { at + length piece.now ≤ 18446744073709551615 }
    ensures is_open { D.is_open disk.new ≡ true }
    ensures told { WhereHistoryTold (D.told disk.old) (D.told disk.new) (WritesDown result at piece.now) }
    ensures faults { CountsDid result (D.faults disk.old) (D.faults disk.new) }
{
    match disk.write_at(at, piece) {
        DiskDid::Done => disk.sync(),
        DiskDid::Failed => DiskDid::Failed,
    }
}
