ghost use Rattle.std.specs.Prelude.{◌≡◌, ◌≤◌, ℕ, List, length, true};
ghost use Rattle.std.specs.List.{AllByRecursion};
ghost use Rattle.djq_disk.specs.History.{WhereHistoryTold};
ghost use Rattle.djq_journal.specs.Format.{IsJournalLine};
ghost use Rattle.djq_journal.specs.Standing.{IsAtGate, IsIdle};
ghost use Rattle.djq_journal.specs.Calls.{JournalReads, LineFits, CountsLine};
ghost use Rattle.djq_journal.specs.Passing.{HasPassed};
ghost use Rattle.djq_journal.specs.Appending.{Appends, HasGroupRoom, CountsAppended};
ghost use Rattle.djq_journal.specs.Reading.{place_after, EndsWithin};
ghost use Rattle.djq_journal.specs.declared.limits.TheConstants.{LINE_BYTES};

use crate::appending::{append_at, end_of};
use crate::group::Group;
use crate::line::Line;
use crate::reading::{place_after, read_line};
use djq_disk::{Disk, DiskDid};
use std::marker::Model;

/// The answer to an append.
#[derive(Debug, Drop)]
pub enum Appended {
    /// The group is stored, and outlives a crash from now on. The journal is idle again.
    Done(Journal),
    /// The disk failed. A stop leaves the whole group or nothing of it.
    Failed,
    /// The gate after the group would lie past the last place. Nothing was written.
    Full,
}

/// A journal, by the place of its current gate.
#[derive(Debug, Drop)]
pub struct Journal {
    gate: u64,
}

impl Model for Journal {
    ghost use Rattle.std.specs.Prelude.{ℕ};

    ghost Value = { ℕ };

    ghost view = { λ j. j.gate };
}

impl Journal {
    /// A journal at its first gate, before its first line. The file begins with a journal's header.
    pub fn first() -> Self
        ensures { result ≡ 8 }
    {
        Journal { gate: 8 }
    }

    /// The place of its current gate.
    pub fn place(&self) -> u64
        ensures { result ≡ self.now }
    {
        self.gate
    }

    /// Reads the next line into the start of the buffer, which has room for any, and moves to the gate after it.
    pub fn next_line<D: Disk>(&mut self, disk: &mut D, buf: &mut [u8]) -> Line
        requires is_open { D.is_open disk.old ≡ true }
        requires room { LINE_BYTES ≤ length buf.old }
        ensures is_open { D.is_open disk.new ≡ true }
        ensures told { (lines : List (List ℕ)) → WhereHistoryTold (D.told disk.old) (D.told disk.new)
            (λ o n. (n ≡ o)
            × (IsAtGate lines self.old o.file → JournalReads result lines self.old self.new buf.new o.file)) }
        ensures fits { LineFits result }
        ensures place { self.new ≡ place_after self.old result }
        ensures within { EndsWithin result self.old }
        ensures faults { CountsLine result (D.faults disk.old) (D.faults disk.new) }
    {
        let line = read_line(disk, self.gate, buf);
        self.gate = place_after(self.gate, line);
        line
    }

    /// Appends a group of lines as a whole, with two syncs however many they are.
    ///
    /// The journal is idle on this disk: [`next_line`](Journal::next_line) answered `End`, or an append
    /// returned it, and nothing was written since. A caller whose disk records no history is bound by the same.
    pub fn append_all<D: Disk, G: Group>(self, disk: &mut D, group: &G) -> Appended
        requires is_open { D.is_open disk.old ≡ true }
        requires some { 1 ≤ length (G.lines group.now) }
        requires lines { AllByRecursion IsJournalLine (G.lines group.now) }
        ensures is_open { D.is_open disk.new ≡ true }
        ensures room { HasGroupRoom result self (G.lines group.now) }
        ensures told { (lines : List (List ℕ)) → WhereHistoryTold (D.told disk.old) (D.told disk.new)
            (λ o n. IsIdle lines self o.file → Appends result lines (G.lines group.now) o n) }
        ensures moments { WhereHistoryTold (D.told disk.old) (D.told disk.new) HasPassed }
        ensures faults { CountsAppended result (D.faults disk.old) (D.faults disk.new) }
    {
        match end_of(self.gate, group) {
            None => Appended::Full,
            Some(gate) => match append_at(disk, self.gate, group) {
                DiskDid::Done => Appended::Done(Journal { gate }),
                DiskDid::Failed => Appended::Failed,
            },
        }
    }
}
