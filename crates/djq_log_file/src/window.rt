ghost use Rattle.std.specs.Prelude.{◌≡◌, ◌+◌, ◌-◌, ◌≤◌, [], length, drop, true, IfOk};
ghost use Rattle.djq_disk.specs.History.{WhereHistoryTold};
ghost use Rattle.djq_disk.specs.DiskFaults.{CountsDiskRead, CountsFill};
ghost use Rattle.djq_disk.specs.Filling.{FillsWithin};
ghost use Rattle.djq_log_file.specs.Window.{LooksAhead, ReachesAhead, ReadsThrough, FillsPart};

use djq_disk::{Disk, DiskRead, Filled};
use std::alloc::{AllocError, Global};
use std::marker::Model;

/// How many bytes a window has room for.
const WINDOW_BYTES: usize = 65_536;

/// A window over the file of a disk, through which it is read in pieces of up to 64 KiB.
#[derive(Debug, Drop)]
pub struct Window {
    bytes: Vec<u8>,
    start: u64,
    filled: usize,
}

impl Model for Window {
    ghost use Rattle.std.specs.Prelude.{◌+◌, ◌<◌, ◌≤◌, length, take};
    ghost use Rattle.djq_log_file.specs.Window.{FilePart};

    ghost Value = { FilePart };

    ghost view = { λ w. record { start = w.start; held = take w.filled w.bytes.items } };

    ghost invariant = { λ w. (w.filled ≤ length w.bytes.items) × (0 < length w.bytes.items)
        × (w.start + w.filled ≤ 18446744073709551615) };
}

impl Window {
    /// A window that holds nothing yet.
    pub fn new(alloc: Global) -> Result<Self, AllocError>
        ensures { IfOk result (λ w. w ≡ record { start = 0; held = [] }) }
    {
        let mut bytes = Vec::new(alloc);
        bytes.resize(WINDOW_BYTES, 0)?;
        Ok(Window {
            bytes,
            start: 0,
            filled: 0,
        })
    }

    /// How many bytes are held from the place on. The disk is read only if none is.
    pub fn look<D: Disk>(&mut self, disk: &mut D, at: u64) -> DiskRead
        requires { D.is_open disk.old ≡ true }
        ensures is_open { D.is_open disk.new ≡ true }
        ensures told { WhereHistoryTold (D.told disk.old) (D.told disk.new) (LooksAhead result at self.old self.new) }
        ensures reach { ReachesAhead result at self.new }
        ensures faults { CountsDiskRead result (D.faults disk.old) (D.faults disk.new) }
    {
        if self.start <= at && at - self.start < self.filled as u64 {
            return DiskRead::Got(self.filled - (at - self.start) as usize);
        }
        self.filled = 0;
        let read = disk.read(at, &mut self.bytes);
        if let DiskRead::Got(n) = read {
            self.start = at;
            self.filled = n;
        }
        read
    }

    /// The bytes that are held from the place on.
    pub fn from(&self, at: u64) -> &[u8]
        requires first { self.now.start ≤ at }
        requires last { at ≤ self.now.start + length self.now.held }
        ensures { result.now ≡ drop (at - self.now.start) self.now.held }
    {
        &self.bytes[(at - self.start) as usize..self.filled]
    }

    /// Fills the whole buffer with the bytes of the file from the place on.
    pub fn fill<D: Disk>(&mut self, disk: &mut D, at: u64, buf: &mut [u8]) -> Filled
        requires { D.is_open disk.old ≡ true }
        ensures is_open { D.is_open disk.new ≡ true }
        ensures told { WhereHistoryTold (D.told disk.old) (D.told disk.new)
            (ReadsThrough (FillsPart result at buf.new) self.old self.new) }
        ensures within { FillsWithin result at buf.new }
        ensures faults { CountsFill result (D.faults disk.old) (D.faults disk.new) }
    {
        let mut done = 0;
        while done < buf.len() {
            match self.look(disk, at + done as u64) {
                DiskRead::Got(n) => {
                    let end = done + n.min(buf.len() - done);
                    buf[done..end].copy_from_slice(&self.from(at + done as u64)[..end - done]);
                    done = end;
                }
                DiskRead::End => return Filled::Short,
                DiskRead::Failed => return Filled::Failed,
            }
        }
        Filled::Whole
    }
}
