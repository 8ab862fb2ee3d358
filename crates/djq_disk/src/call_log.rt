ghost use Rattle.std.specs.Prelude.{◌≡◌, [], Some, None, MatchResult};
ghost use Rattle.std.specs.Option.{option_copied};
ghost use Rattle.djq_disk.specs.History.{WhereHistoryTold};
ghost use Rattle.djq_disk.specs.CallLog.{told_by, history_after_call, GainsCall};

use crate::disk::{DiskDid, DiskLen, DiskOpen, DiskRead};
use djq_io::{Piece, Recording};
use std::alloc::{AllocError, Global};
use std::marker::Model;

/// A call of a disk and its answer.
#[derive(Debug, Drop)]
pub enum DiskCall {
    /// The file at this path was to be opened.
    Opening(Piece, DiskOpen),
    /// The length was asked for.
    Measuring(DiskLen),
    /// Bytes were to be read at this place.
    Reading(u64, DiskRead),
    /// This piece was to be written at this place.
    Writing(u64, Piece, DiskDid),
    /// All was to be synced.
    Syncing(DiskDid),
    /// A next file was to be made.
    BeginningNext(DiskDid),
    /// This piece was to be written at this place of the next file.
    WritingNext(u64, Piece, DiskDid),
    /// The next file was to be synced.
    SyncingNext(DiskDid),
    /// The next file was to replace the file.
    Replacing(DiskDid),
}

/// The calls of a disk in memory, after the initial bytes of its file.
#[derive(Debug, Drop)]
pub(crate) struct CallLog {
    first: Piece,
    calls: Recording<DiskCall>,
}

impl Model for CallLog {
    ghost use Rattle.djq_disk.specs.CallLog.{Calls};

    ghost Value = { Calls };

    ghost view = { λ l. record { first = l.first; calls = l.calls } };
}

impl CallLog {
    /// No calls yet, of a file with these bytes.
    pub(crate) fn new(alloc: Global, first: Piece) -> Self
        ensures { result ≡ record { first = first; calls = Some [] } }
    {
        CallLog {
            first,
            calls: Recording::new(alloc),
        }
    }

    /// The calls in order, or `None` once they are lost.
    pub(crate) fn calls(&self) -> Option<&[DiskCall]>
        ensures { option_copied result ≡ self.now.calls }
    {
        self.calls.items()
    }

    /// Appends a call, or drops the whole list if there was no memory to make it.
    pub(crate) fn push(&mut self, call: Result<DiskCall, AllocError>)
        ensures first { self.new.first ≡ self.old.first }
        ensures gains { MatchResult call (λ made. GainsCall made self.old self.new) (λ _. self.new.calls ≡ None) }
        ensures told { MatchResult call (λ made. WhereHistoryTold (told_by self.old) (told_by self.new)
            (λ o n. n ≡ history_after_call o made))
            (λ _. told_by self.new ≡ None) }
    {
        self.calls.push_made(call);
    }
}
