//! How the calls of a disk are noted. At run time nothing of this is done.
ghost use Rattle.std.specs.Prelude.{◌≡◌, ◌≤◌, [], ◌∷◌, ◌++◌, length, map, take};
ghost use Rattle.djq_disk.specs.History.{FitsRead};
ghost use Rattle.djq_disk.specs.declared.call_log.DiskCall.TheVariants.{Opening, Measuring, Reading, Writing, Syncing};
ghost use Rattle.djq_disk.specs.declared.call_log.DiskCall.TheVariants.{BeginningNext, WritingNext, SyncingNext};
ghost use Rattle.djq_disk.specs.declared.call_log.DiskCall.TheVariants.{Replacing};
ghost use Rattle.djq_system.specs.DiskNotes.{file_call_noted, did_noted};
ghost use Rattle.djq_system.specs.FileCalls.{given_by_read};

use crate::notes::Notes;
use djq_disk::{DiskDid, DiskLen, DiskOpen, DiskRead};

const OPEN: u64 = 0;

const LEN: u64 = 1;

const READ: u64 = 2;

const WRITE: u64 = 3;

const SYNC: u64 = 4;

const BEGIN_NEXT: u64 = 5;

const WRITE_NEXT: u64 = 6;

const SYNC_NEXT: u64 = 7;

const REPLACE: u64 = 8;

/// The number of an answer.
#[inline(always)]
fn number_of(answer: DiskDid) -> u64
    ensures { did_noted result ≡ answer }
{
    match answer {
        DiskDid::Done => 0,
        DiskDid::Failed => 1,
    }
}

/// Notes that the file at the path was to be opened.
#[inline(always)]
pub(crate) fn note_open(notes: &mut Notes, path: &str, answer: DiskOpen)
    ensures { map file_call_noted notes.new.calls
        ≡ map file_call_noted notes.old.calls ++ record { call = Opening path.now answer; gave = [] } ∷ [] }
{
    match answer {
        DiskOpen::Ready => notes.note(&[OPEN, 0], path.as_bytes()),
        DiskOpen::Failed => notes.note(&[OPEN, 1], path.as_bytes()),
    }
}

/// Notes that the length was asked for.
#[inline(always)]
pub(crate) fn note_len(notes: &mut Notes, answer: DiskLen)
    ensures { map file_call_noted notes.new.calls
        ≡ map file_call_noted notes.old.calls ++ record { call = Measuring answer; gave = [] } ∷ [] }
{
    match answer {
        DiskLen::Len(n) => notes.note(&[LEN, 0, 0, n], &[]),
        DiskLen::Failed => notes.note(&[LEN, 1], &[]),
    }
}

/// Notes a read at a place, with the bytes that it gave to the start of the buffer.
#[inline(always)]
pub(crate) fn note_read(notes: &mut Notes, at: u64, buf: &[u8], answer: DiskRead)
    requires { FitsRead answer at buf.now }
    ensures { map file_call_noted notes.new.calls
        ≡ map file_call_noted notes.old.calls
        ++ record { call = Reading at answer; gave = given_by_read answer buf.now } ∷ [] }
{
    match answer {
        DiskRead::Got(n) => notes.note(&[READ, 0, at, n as u64], &buf[..n]),
        DiskRead::End => notes.note(&[READ, 1, at], &[]),
        DiskRead::Failed => notes.note(&[READ, 2, at], &[]),
    }
}

/// Notes a write of the piece at a place.
#[inline(always)]
pub(crate) fn note_write(notes: &mut Notes, at: u64, piece: &[u8], answer: DiskDid)
    ensures { map file_call_noted notes.new.calls
        ≡ map file_call_noted notes.old.calls ++ record { call = Writing at piece.now answer; gave = [] } ∷ [] }
{
    notes.note(&[WRITE, number_of(answer), at], piece);
}

/// Notes a sync.
#[inline(always)]
pub(crate) fn note_sync(notes: &mut Notes, answer: DiskDid)
    ensures { map file_call_noted notes.new.calls
        ≡ map file_call_noted notes.old.calls ++ record { call = Syncing answer; gave = [] } ∷ [] }
{
    notes.note(&[SYNC, number_of(answer)], &[]);
}

/// Notes that a next file was to be made.
#[inline(always)]
pub(crate) fn note_begin_next(notes: &mut Notes, answer: DiskDid)
    ensures { map file_call_noted notes.new.calls
        ≡ map file_call_noted notes.old.calls ++ record { call = BeginningNext answer; gave = [] } ∷ [] }
{
    notes.note(&[BEGIN_NEXT, number_of(answer)], &[]);
}

/// Notes a write of the piece at a place of the next file.
#[inline(always)]
pub(crate) fn note_write_next(notes: &mut Notes, at: u64, piece: &[u8], answer: DiskDid)
    ensures { map file_call_noted notes.new.calls
        ≡ map file_call_noted notes.old.calls ++ record { call = WritingNext at piece.now answer; gave = [] } ∷ [] }
{
    notes.note(&[WRITE_NEXT, number_of(answer), at], piece);
}

/// Notes a sync of the next file.
#[inline(always)]
pub(crate) fn note_sync_next(notes: &mut Notes, answer: DiskDid)
    ensures { map file_call_noted notes.new.calls
        ≡ map file_call_noted notes.old.calls ++ record { call = SyncingNext answer; gave = [] } ∷ [] }
{
    notes.note(&[SYNC_NEXT, number_of(answer)], &[]);
}

/// Notes that the next file was to replace the file.
#[inline(always)]
pub(crate) fn note_replace(notes: &mut Notes, answer: DiskDid)
    ensures { map file_call_noted notes.new.calls
        ≡ map file_call_noted notes.old.calls ++ record { call = Replacing answer; gave = [] } ∷ [] }
{
    notes.note(&[REPLACE, number_of(answer)], &[]);
}
