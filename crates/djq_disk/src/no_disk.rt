ghost use Rattle.std.specs.Prelude.{◌≡◌, ℕ, ◌+◌, ◌<◌, ◌≤◌, length, None, true};
ghost use Rattle.djq_disk.specs.History.{History, WhereHistoryTold, OpensPath, Opens, Sizes, DiskReads, FitsRead};
ghost use Rattle.djq_disk.specs.History.{DiskWrites, Syncs, BeginsNext, WritesNext, SyncsNext, Replaces};
ghost use Rattle.djq_disk.specs.DiskFaults.{CountsOpen, CountsLen, CountsDiskRead, CountsDid};

use crate::disk::{Disk, DiskDid, DiskLen, DiskOpen, DiskRead};

/// A disk that stores nothing, for a program without a file. It records no history, never fails, and is
/// always open.
#[derive(Clone, Copy, Debug)]
pub struct NoDisk;

impl Disk for NoDisk {
    ghost told = { λ _. None };

    ghost is_open = { λ _. true };

    ghost faults = { λ _. 0 };

    fn open(&mut self, _path: &str) -> DiskOpen {
        DiskOpen::Ready
    }

    fn len(&mut self) -> DiskLen {
        DiskLen::Len(0)
    }

    fn read(&mut self, _at: u64, _buf: &mut [u8]) -> DiskRead {
        DiskRead::End
    }

    fn write_at(&mut self, _at: u64, _piece: &[u8]) -> DiskDid {
        DiskDid::Done
    }

    fn sync(&mut self) -> DiskDid {
        DiskDid::Done
    }

    fn begin_next(&mut self) -> DiskDid {
        DiskDid::Done
    }

    fn write_next(&mut self, _at: u64, _piece: &[u8]) -> DiskDid {
        DiskDid::Done
    }

    fn sync_next(&mut self) -> DiskDid {
        DiskDid::Done
    }

    fn replace(&mut self) -> DiskDid {
        DiskDid::Done
    }
}
