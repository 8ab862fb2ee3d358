ghost use Rattle.std.specs.Prelude.{◌≡◌, ◌+◌, ◌≤◌, length, true};
ghost use Rattle.djq_disk.specs.History.{WhereHistoryTold};
ghost use Rattle.djq_disk.specs.DiskFaults.{CountsFill};
ghost use Rattle.djq_disk.specs.Filling.{FillsBuffer, FillsWithin};

use crate::disk::{Disk, DiskRead};

/// How a buffer was filled.
#[derive(Clone, Copy, Debug, PartialEq, Eq)]
pub enum Filled {
    /// All of it.
    Whole,
    /// The file ends before its end.
    Short,
    Failed,
}

/// Fills the whole buffer with the bytes of the file from the place on, by as many reads as are needed.
pub fn fill<D: Disk>(disk: &mut D, at: u64, buf: &mut [u8]) -> Filled
    requires { D.is_open disk.old ≡ true }
    ensures is_open { D.is_open disk.new ≡ true }
    ensures told { WhereHistoryTold (D.told disk.old) (D.told disk.new) (FillsBuffer result at buf.new) }
    ensures within { FillsWithin result at buf.new }
    ensures faults { CountsFill result (D.faults disk.old) (D.faults disk.new) }
{
    let mut done = 0;
    while done < buf.len() {
        match disk.read(at + done as u64, &mut buf[done..]) {
            DiskRead::Got(n) => done += n,
            DiskRead::End => return Filled::Short,
            DiskRead::Failed => return Filled::Failed,
        }
    }
    Filled::Whole
}
