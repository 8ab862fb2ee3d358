ghost use Rattle.std.specs.Prelude.{◌≡◌, ◌+◌, ◌<◌, ◌≤◌, [], ◌∷◌, ◌++◌, length, Some, OnOk, OnErr, IfOk, IfSome, true};
ghost use Rattle.std.specs.Option.{option_copied};
ghost use Rattle.djq_io.specs.Failing.{after_call, failed_count};
ghost use Rattle.djq_disk.specs.File.{piece_put};
ghost use Rattle.djq_disk.specs.History.{WhereHistoryTold, OpensPath, Sizes, IsPart, DiskReads, FitsRead, DiskWrites};
ghost use Rattle.djq_disk.specs.History.{Syncs, BeginsNext, WritesNext, SyncsNext, Replaces};
ghost use Rattle.djq_disk.specs.DiskFaults.{CountsOpen, CountsLen, CountsDiskRead, CountsDid};
ghost use Rattle.djq_disk.specs.CallLog.{told_by, GainsCall};
ghost use Rattle.djq_disk.specs.MemDisk.{did_of, put_by};
ghost use Rattle.djq_disk.specs.declared.call_log.DiskCall.TheVariants.{Opening, Measuring, Reading, Writing, Syncing};
ghost use Rattle.djq_disk.specs.declared.call_log.DiskCall.TheVariants.{BeginningNext, WritingNext, SyncingNext};
ghost use Rattle.djq_disk.specs.declared.call_log.DiskCall.TheVariants.{Replacing};

use crate::call_log::{CallLog, DiskCall};
use crate::disk::{Disk, DiskDid, DiskLen, DiskOpen, DiskRead};
use djq_io::{Failing, Piece};
use std::alloc::{AllocError, Global};
use std::marker::Model;
use std::mem;

/// A disk in memory, which records its whole history, and so all that a crash may leave. Its file is
/// there from the start, and so it is always open. So is its next file, which is empty at first.
///
/// It fails only at the calls that were set to fail ([`MemDisk::fail_at`]); a write that fails leaves the
/// bytes as they were, and counts as written, and a replacement that fails leaves both files. If a growth is
/// refused, it continues to answer, and records nothing from then on.
#[derive(Debug, Drop)]
pub struct MemDisk {
    alloc: Global,
    bytes: Vec<u8>,
    next: Vec<u8>,
    log: CallLog,
    to_fail: Failing,
}

impl Model for MemDisk {
    ghost use Rattle.std.specs.Prelude.{◌≡◌, IfSome};
    ghost use Rattle.djq_disk.specs.CallLog.{told_by};
    ghost use Rattle.djq_disk.specs.MemDisk.{MemDiskInside};

    ghost Value = { MemDiskInside };

    ghost view = { λ d. record { log = d.log; to_fail = d.to_fail } };

    ghost invariant = { λ d. IfSome (told_by d.log)
        (λ h. (h.file.bytes ≡ d.bytes.items) × (h.next.bytes ≡ d.next.items)) };
}

impl MemDisk {
    /// A disk that was asked nothing yet, with a file of these bytes.
    pub fn of(alloc: Global, bytes: &[u8]) -> Result<Self, AllocError>
        ensures { IfOk result (λ disk. disk ≡ record {
          log = record {
            first = bytes.now;
            calls =
                Some [];
          };
          to_fail = [];
        }) }
    {
        let first = Piece::copy_of(alloc, bytes)?;
        Ok(MemDisk {
            alloc,
            bytes: Vec::from_slice(alloc, bytes)?,
            next: Vec::new(alloc),
            log: CallLog::new(alloc, first),
            to_fail: Failing::new(alloc),
        })
    }

    /// The bytes of the file, as reads give them.
    pub fn bytes(&self) -> &[u8]
        ensures { IfSome (told_by self.now.log) (λ h. h.file.bytes ≡ result.now) }
    {
        &self.bytes
    }

    /// The bytes of the next file.
    pub fn next_bytes(&self) -> &[u8]
        ensures { IfSome (told_by self.now.log) (λ h. h.next.bytes ≡ result.now) }
    {
        &self.next
    }

    /// Its calls in order with their answers, or `None` once they were lost.
    pub fn calls(&self) -> Option<&[DiskCall]>
        ensures { option_copied result ≡ self.now.log.calls }
    {
        self.log.calls()
    }

    /// Lets a call fail: 1 is the next one, whichever it is, 2 the one after it, and so on.
    pub fn fail_at(&mut self, call: u64) -> Result<(), AllocError>
        requires { 0 < call }
        ensures ok { OnOk result (self.new ≡ record self.old { to_fail = self.old.to_fail ++ call ∷ [] }) }
        ensures err { OnErr result (self.new ≡ self.old) }
    {
        self.to_fail.push(call)
    }

    /// What the next call answers, if it only does or fails.
    fn did(&mut self) -> DiskDid
        ensures exact { result ≡ did_of self.old }
        ensures counted { self.new ≡ record self.old { to_fail = after_call self.old.to_fail } }
        ensures faults { CountsDid result (failed_count self.old.to_fail) (failed_count self.new.to_fail) }
    {
        if self.to_fail.count_down() {
            DiskDid::Failed
        } else {
            DiskDid::Done
        }
    }
}

/// Writes a piece into bytes, with zeros before it if they ended earlier.
fn put_piece(bytes: &mut Vec<u8>, at: usize, piece: &[u8]) -> Result<(), AllocError>
    requires { at + length piece.now ≤ 18446744073709551615 }
    ensures { OnOk result (bytes.new.items ≡ piece_put at piece.now bytes.old.items) }
{
    let alloc = *bytes.allocator();
    let end = bytes.len().min(at + piece.len());
    let behind = Vec::from_slice(alloc, &bytes[end..])?;
    bytes.truncate(at);
    bytes.resize(at, 0)?;
    bytes.extend_from_slice(piece)?;
    bytes.extend_from_slice(&behind)
}

/// A write with this answer. Returns its piece, for the call that is recorded.
fn write(bytes: &mut Vec<u8>, at: u64, piece: &[u8], answer: DiskDid) -> Result<Piece, AllocError>
    requires { at + length piece.now ≤ 18446744073709551615 }
    ensures copy { IfOk result (λ copy. copy ≡ piece.now) }
    ensures bytes { OnOk result (bytes.new.items ≡ put_by answer at piece.now bytes.old.items) }
{
    let alloc = *bytes.allocator();
    let copy = Piece::copy_of(alloc, piece)?;
    if answer == DiskDid::Done {
        put_piece(bytes, at as usize, piece)?;
    }
    Ok(copy)
}

/// Reads from bytes at a place.
fn read_from(bytes: &[u8], at: u64, buf: &mut [u8]) -> DiskRead
    requires { 0 < length buf.old }
    ensures part { IsPart result at buf.new bytes.now }
    ensures fits { FitsRead result at buf.new }
    ensures works { result ≡ DiskRead.Failed → ⊥ }
{
    let from = bytes.len().min(at as usize);
    let n = buf.len().min(bytes.len() - from);
    if n == 0 {
        return DiskRead::End;
    }
    buf[..n].copy_from_slice(&bytes[from..from + n]);
    DiskRead::Got(n)
}

impl Disk for MemDisk {
    ghost told = { λ d. told_by d.log };

    ghost is_open = { λ _. true };

    ghost faults = { λ d. failed_count d.to_fail };

    fn open(&mut self, path: &str) -> DiskOpen
        ensures call { GainsCall (Opening path.now result) self.old.log self.new.log }
        ensures to_fail { self.new.to_fail ≡ after_call self.old.to_fail }
        ensures told { WhereHistoryTold (told_by self.old.log) (told_by self.new.log) (OpensPath path.now) }
        ensures faults { CountsOpen result (failed_count self.old.to_fail) (failed_count self.new.to_fail) }
    {
        let answer = if self.to_fail.count_down() {
            DiskOpen::Failed
        } else {
            DiskOpen::Ready
        };
        let path = Piece::copy_of(self.alloc, path.as_bytes());
        self.log
            .push(path.map(|path| DiskCall::Opening(path, answer)));
        answer
    }

    fn len(&mut self) -> DiskLen
        ensures call { GainsCall (Measuring result) self.old.log self.new.log }
        ensures to_fail { self.new.to_fail ≡ after_call self.old.to_fail }
        ensures told { WhereHistoryTold (told_by self.old.log) (told_by self.new.log) (Sizes result) }
        ensures faults { CountsLen result (failed_count self.old.to_fail) (failed_count self.new.to_fail) }
    {
        let answer = if self.to_fail.count_down() {
            DiskLen::Failed
        } else {
            DiskLen::Len(self.bytes.len() as u64)
        };
        self.log.push(Ok(DiskCall::Measuring(answer)));
        answer
    }

    fn read(&mut self, at: u64, buf: &mut [u8]) -> DiskRead
        requires { 0 < length buf.old }
        ensures call { GainsCall (Reading at result) self.old.log self.new.log }
        ensures to_fail { self.new.to_fail ≡ after_call self.old.to_fail }
        ensures fits { FitsRead result at buf.new }
        ensures told { WhereHistoryTold (told_by self.old.log) (told_by self.new.log) (DiskReads result at buf.new) }
        ensures faults { CountsDiskRead result (failed_count self.old.to_fail) (failed_count self.new.to_fail) }
    {
        let answer = if self.to_fail.count_down() {
            DiskRead::Failed
        } else {
            read_from(&self.bytes, at, buf)
        };
        self.log.push(Ok(DiskCall::Reading(at, answer)));
        answer
    }

    fn write_at(&mut self, at: u64, piece: &[u8]) -> DiskDid
        requires { at + length piece.now ≤ 18446744073709551615 }
        ensures exact { result ≡ did_of self.old }
        ensures call { GainsCall (Writing at piece.now result) self.old.log self.new.log }
        ensures to_fail { self.new.to_fail ≡ after_call self.old.to_fail }
        ensures told { WhereHistoryTold (told_by self.old.log) (told_by self.new.log) (DiskWrites result at piece.now) }
        ensures faults { CountsDid result (failed_count self.old.to_fail) (failed_count self.new.to_fail) }
    {
        let answer = self.did();
        let copy = write(&mut self.bytes, at, piece, answer);
        self.log
            .push(copy.map(|copy| DiskCall::Writing(at, copy, answer)));
        answer
    }

    fn sync(&mut self) -> DiskDid
        ensures exact { result ≡ did_of self.old }
        ensures call { GainsCall (Syncing result) self.old.log self.new.log }
        ensures to_fail { self.new.to_fail ≡ after_call self.old.to_fail }
        ensures told { WhereHistoryTold (told_by self.old.log) (told_by self.new.log) (Syncs result) }
        ensures faults { CountsDid result (failed_count self.old.to_fail) (failed_count self.new.to_fail) }
    {
        let answer = self.did();
        self.log.push(Ok(DiskCall::Syncing(answer)));
        answer
    }

    fn begin_next(&mut self) -> DiskDid
        ensures exact { result ≡ did_of self.old }
        ensures call { GainsCall (BeginningNext result) self.old.log self.new.log }
        ensures to_fail { self.new.to_fail ≡ after_call self.old.to_fail }
        ensures told { WhereHistoryTold (told_by self.old.log) (told_by self.new.log) (BeginsNext result) }
        ensures faults { CountsDid result (failed_count self.old.to_fail) (failed_count self.new.to_fail) }
    {
        let answer = self.did();
        if answer == DiskDid::Done {
            self.next.clear();
        }
        self.log.push(Ok(DiskCall::BeginningNext(answer)));
        answer
    }

    fn write_next(&mut self, at: u64, piece: &[u8]) -> DiskDid
        requires { at + length piece.now ≤ 18446744073709551615 }
        ensures exact { result ≡ did_of self.old }
        ensures call { GainsCall (WritingNext at piece.now result) self.old.log self.new.log }
        ensures to_fail { self.new.to_fail ≡ after_call self.old.to_fail }
        ensures told { WhereHistoryTold (told_by self.old.log) (told_by self.new.log) (WritesNext result at piece.now) }
        ensures faults { CountsDid result (failed_count self.old.to_fail) (failed_count self.new.to_fail) }
    {
        let answer = self.did();
        let copy = write(&mut self.next, at, piece, answer);
        self.log
            .push(copy.map(|copy| DiskCall::WritingNext(at, copy, answer)));
        answer
    }

    fn sync_next(&mut self) -> DiskDid
        ensures exact { result ≡ did_of self.old }
        ensures call { GainsCall (SyncingNext result) self.old.log self.new.log }
        ensures to_fail { self.new.to_fail ≡ after_call self.old.to_fail }
        ensures told { WhereHistoryTold (told_by self.old.log) (told_by self.new.log) (SyncsNext result) }
        ensures faults { CountsDid result (failed_count self.old.to_fail) (failed_count self.new.to_fail) }
    {
        let answer = self.did();
        self.log.push(Ok(DiskCall::SyncingNext(answer)));
        answer
    }

    fn replace(&mut self) -> DiskDid
        ensures exact { result ≡ did_of self.old }
        ensures call { GainsCall (Replacing result) self.old.log self.new.log }
        ensures to_fail { self.new.to_fail ≡ after_call self.old.to_fail }
        ensures told { WhereHistoryTold (told_by self.old.log) (told_by self.new.log) (Replaces result) }
        ensures faults { CountsDid result (failed_count self.old.to_fail) (failed_count self.new.to_fail) }
    {
        let answer = self.did();
        if answer == DiskDid::Done {
            mem::swap(&mut self.bytes, &mut self.next);
            self.next.clear();
        }
        self.log.push(Ok(DiskCall::Replacing(answer)));
        answer
    }
}
