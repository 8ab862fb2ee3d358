ghost use Rattle.std.specs.Prelude.{◌≡◌, ◌+◌, ◌<◌, ◌≤◌, ℕ, List, length, take, drop, ◌++◌, [], ◌∷◌, IfSome, IfNone, true};
ghost use Rattle.std.specs.List.{AllByRecursion};
ghost use Rattle.djq_disk.specs.History.{WhereHistoryTold};
ghost use Rattle.djq_disk.specs.DiskFaults.{CountsDid};
ghost use Rattle.djq_journal.specs.Format.{IsJournalLine, body_of};
ghost use Rattle.djq_journal.specs.Standing.{IsIdle};
ghost use Rattle.djq_journal.specs.Passing.{HasPassed};
ghost use Rattle.djq_journal.specs.Appending.{gate_after};
ghost use Rattle.djq_journal.specs.Staging.{gate_before, IsStaged, AppendsAt};
ghost use Rattle.djq_journal.specs.declared.limits.TheConstants.{LINE_BYTES};

use crate::group::Group;
use crate::limits::{LAST_GATE, PIECE_BYTES};
use djq_disk::{Disk, DiskDid, write_down};

/// The place of the gate after a group that is appended at this one, or `None` if that is past the last place.
pub(crate) fn end_of<G: Group>(gate: u64, group: &G) -> Option<u64>
    requires { AllByRecursion IsJournalLine (G.lines group.now) }
    ensures some { IfSome result (λ end. (end ≡ gate_after gate (G.lines group.now)) × (end ≤ LAST_GATE)) }
    ensures none { IfNone result (LAST_GATE < gate_after gate (G.lines group.now)) }
{
    if LAST_GATE < gate {
        return None;
    }
    let mut end = gate;
    let mut i = 0;
    while let Some(line) = group.line(i) {
        let size = 3 + line.len() as u64;
        if LAST_GATE - end < size {
            return None;
        }
        end += size;
        i += 1;
    }
    Some(end)
}

/// Lays out what follows a gate, in just as many bytes: the line after its length, and the next gate.
fn lay_out(buf: &mut [u8], line: &[u8], gate: u8)
    requires room { length buf.old ≡ 3 + length line.now }
    requires short { length line.now ≤ LINE_BYTES }
    ensures { buf.new ≡ body_of line.now ++ gate ∷ [] }
{
    let end = 2 + line.len();
    buf[0] = (line.len() / 256) as u8;
    buf[1] = (line.len() % 256) as u8;
    buf[2..end].copy_from_slice(line);
    buf[end] = gate;
}

/// The gate before the line with this number: open, or closed if there is no such line.
fn gate_before<G: Group>(group: &G, i: usize) -> u8
    ensures { result ≡ gate_before (drop i (G.lines group.now)) }
{
    match group.line(i) {
        Some(_line) => 1,
        None => 0,
    }
}

/// Writes the records of a group after the gate, which stays as it is. They are gathered, and written in a
/// piece when the next one finds no room, and at the end.
fn write_records<D: Disk, G: Group>(disk: &mut D, gate: u64, group: &G) -> DiskDid
    requires is_open { D.is_open disk.old ≡ true }
    requires lines { AllByRecursion IsJournalLine (G.lines group.now) }
    requires room { gate_after gate (G.lines group.now) ≤ LAST_GATE }
    ensures is_open { D.is_open disk.new ≡ true }
    ensures told { (lines : List (List ℕ)) → WhereHistoryTold (D.told disk.old) (D.told disk.new)
        (λ o n. IsIdle lines gate o.file → IsStaged result lines gate (G.lines group.now) o n) }
    ensures moments { WhereHistoryTold (D.told disk.old) (D.told disk.new) HasPassed }
    ensures faults { CountsDid result (D.faults disk.old) (D.faults disk.new) }
{
    let mut buf = [0; PIECE_BYTES];
    let mut at = gate + 1;
    let mut filled = 0;
    let mut i = 0;
    while let Some(line) = group.line(i) {
        let size = 3 + line.len();
        if PIECE_BYTES - filled < size {
            match disk.write_at(at, &buf[..filled]) {
                DiskDid::Done => at += filled as u64,
                DiskDid::Failed => return DiskDid::Failed,
            }
            filled = 0;
        }
        let end = filled + size;
        lay_out(&mut buf[filled..end], line, gate_before(group, i + 1));
        filled = end;
        i += 1;
    }
    disk.write_at(at, &buf[..filled])
}

/// Appends a group at a gate for which there is room: its records are written and synced after the
/// closed gate, and then the gate is opened and synced.
pub(crate) fn append_at<D: Disk, G: Group>(disk: &mut D, gate: u64, group: &G) -> DiskDid
    requires is_open { D.is_open disk.old ≡ true }
    requires some { 1 ≤ length (G.lines group.now) }
    requires lines { AllByRecursion IsJournalLine (G.lines group.now) }
    requires room { gate_after gate (G.lines group.now) ≤ LAST_GATE }
    ensures is_open { D.is_open disk.new ≡ true }
    ensures told { (lines : List (List ℕ)) → WhereHistoryTold (D.told disk.old) (D.told disk.new)
        (λ o n. IsIdle lines gate o.file → AppendsAt result lines gate (G.lines group.now) o n) }
    ensures moments { WhereHistoryTold (D.told disk.old) (D.told disk.new) HasPassed }
    ensures faults { CountsDid result (D.faults disk.old) (D.faults disk.new) }
{
    match write_records(disk, gate, group) {
        DiskDid::Done => match disk.sync() {
            DiskDid::Done => write_down(disk, gate, &[1]),
            DiskDid::Failed => DiskDid::Failed,
        },
        DiskDid::Failed => DiskDid::Failed,
    }
}
