ghost use Rattle.std.specs.Prelude.{◌≡◌, ◌+◌, ◌*◌, ◌<◌, ◌≤◌, ◌++◌, ◌∷◌, [], ℕ, List, length, true, IfSome, IfNone};
ghost use Rattle.std.specs.List.{AllByRecursion};
ghost use Rattle.djq_disk.specs.History.{WhereHistoryTold};
ghost use Rattle.djq_disk.specs.DiskFaults.{CountsDid};
ghost use Rattle.djq_log_format.specs.Encoding.{measured};
ghost use Rattle.djq_log_format.specs.Format.{IsLogLine, record_body, record_head, content_of};
ghost use Rattle.djq_log_file.specs.Laying.{LaysMore, MovesEnd, WritesFrom, end_of_gathering};
ghost use Rattle.djq_log_file.specs.Appending.{FitsLogLine, IsMeasured, AppendsHere};
ghost use Rattle.djq_log_file.specs.declared.limits.TheConstants.{LAST_LOG_GATE};

use crate::gathering::PieceWriter;
use crate::group::Group;
use crate::limits::LAST_LOG_GATE;
use djq_disk::{Disk, DiskDid, write_down};
use djq_log_format::Measure;

/// How many bytes the entry of a line has.
fn entry_size(line: &[u8]) -> u64
    ensures is { result ≡ 2 + length line.now }
    ensures bytes { AllByRecursion (λ byte. byte < 256) line.now }
{
    2 + line.len() as u64
}

/// Measures a group that is to be appended at a gate, after this digest: the place of the gate after it, and its
/// body; or `None` if that place is past the last one.
pub(crate) fn measure<G: Group>(gate: u64, digest: u64, group: &G) -> Option<(u64, Measure)>
    requires { AllByRecursion FitsLogLine (G.lines group.now) }
    ensures some { IfSome result (λ found. IsMeasured gate digest (G.lines group.now) found.0 found.1) }
    ensures none { IfNone result (LAST_LOG_GATE < gate + 17 + length (record_body (G.lines group.now))) }
{
    if LAST_LOG_GATE - 17 < gate {
        return None;
    }
    let mut end = gate + 17;
    let mut measure = Measure::new(digest);
    let mut i = 0;
    while let Some(line) = group.line(i) {
        let size = entry_size(line);
        if LAST_LOG_GATE - end < size {
            return None;
        }
        end += size;
        measure.add(line);
        i += 1;
    }
    Some((end, measure))
}

/// Lays the entries of the lines of a group.
pub(crate) fn put_lines<D: Disk, G: Group>(
    writer: &mut PieceWriter,
    disk: &mut D,
    group: &G,
) -> DiskDid
    requires is_open { D.is_open disk.old ≡ true }
    requires lines { AllByRecursion FitsLogLine (G.lines group.now) }
    requires place { end_of_gathering writer.old + length (record_body (G.lines group.now)) ≤ 18446744073709551615 }
    ensures is_open { D.is_open disk.new ≡ true }
    ensures told { WhereHistoryTold (D.told disk.old) (D.told disk.new)
        (LaysMore result (record_body (G.lines group.now)) writer.old writer.new) }
    ensures end { MovesEnd result (record_body (G.lines group.now)) writer.old writer.new }
    ensures faults { CountsDid result (D.faults disk.old) (D.faults disk.new) }
{
    let mut i = 0;
    while let Some(line) = group.line(i) {
        match writer.put_line(disk, line) {
            DiskDid::Done => i += 1,
            DiskDid::Failed => return DiskDid::Failed,
        }
    }
    DiskDid::Done
}

/// Lays the head of a record.
pub(crate) fn put_head<D: Disk>(
    writer: &mut PieceWriter,
    disk: &mut D,
    measure: &Measure,
) -> DiskDid
    requires is_open { D.is_open disk.old ≡ true }
    requires short { measure.now.size * 257 < 18446744073709551616 }
    requires place { end_of_gathering writer.old + 16 ≤ 18446744073709551615 }
    ensures is_open { D.is_open disk.new ≡ true }
    ensures told { (digest : ℕ) (lines : List (List ℕ)) → measure.now ≡ measured digest lines
        → WhereHistoryTold (D.told disk.old) (D.told disk.new)
        (LaysMore result (record_head digest (record_body lines)) writer.old writer.new) }
    ensures end { result ≡ DiskDid.Done → end_of_gathering writer.new ≡ end_of_gathering writer.old + 16 }
    ensures faults { CountsDid result (D.faults disk.old) (D.faults disk.new) }
{
    let mut length = [0; 8];
    measure.encode_length(&mut length);
    let mut digest = [0; 8];
    measure.encode_digest(&mut digest);
    match writer.put(disk, &length) {
        DiskDid::Done => writer.put(disk, &digest),
        DiskDid::Failed => DiskDid::Failed,
    }
}

/// Lays what follows the gate of a record: its head, its body, and the closed gate after it.
fn put_content<D: Disk, G: Group>(
    writer: &mut PieceWriter,
    disk: &mut D,
    group: &G,
    measure: &Measure,
) -> DiskDid
    requires is_open { D.is_open disk.old ≡ true }
    requires lines { AllByRecursion FitsLogLine (G.lines group.now) }
    requires short { measure.now.size * 257 < 18446744073709551616 }
    requires place { end_of_gathering writer.old + 17 + length (record_body (G.lines group.now)) ≤ 18446744073709551615 }
    ensures is_open { D.is_open disk.new ≡ true }
    ensures told { (digest : ℕ) → measure.now ≡ measured digest (G.lines group.now)
        → WhereHistoryTold (D.told disk.old) (D.told disk.new)
        (LaysMore result (content_of digest (G.lines group.now) ++ 0 ∷ []) writer.old writer.new) }
    ensures end { result ≡ DiskDid.Done
        → end_of_gathering writer.new ≡ end_of_gathering writer.old + 17 + length (record_body (G.lines group.now)) }
    ensures faults { CountsDid result (D.faults disk.old) (D.faults disk.new) }
{
    match put_head(writer, disk, measure) {
        DiskDid::Done => {}
        DiskDid::Failed => return DiskDid::Failed,
    }
    match put_lines(writer, disk, group) {
        DiskDid::Done => writer.put(disk, &[0]),
        DiskDid::Failed => DiskDid::Failed,
    }
}

/// Writes what follows the gate of a record, which stays as it is.
fn write_content<D: Disk, G: Group>(
    disk: &mut D,
    gate: u64,
    group: &G,
    measure: &Measure,
) -> DiskDid
    requires is_open { D.is_open disk.old ≡ true }
    requires lines { AllByRecursion FitsLogLine (G.lines group.now) }
    requires short { measure.now.size * 257 < 18446744073709551616 }
    requires place { gate + 18 + length (record_body (G.lines group.now)) ≤ 18446744073709551615 }
    ensures is_open { D.is_open disk.new ≡ true }
    ensures told { (digest : ℕ) → measure.now ≡ measured digest (G.lines group.now)
        → WhereHistoryTold (D.told disk.old) (D.told disk.new)
        (WritesFrom result (gate + 1) (content_of digest (G.lines group.now) ++ 0 ∷ [])) }
    ensures faults { CountsDid result (D.faults disk.old) (D.faults disk.new) }
{
    let mut writer = PieceWriter::new(gate + 1);
    match put_content(&mut writer, disk, group, measure) {
        DiskDid::Done => writer.flush(disk),
        DiskDid::Failed => DiskDid::Failed,
    }
}

/// Appends a group that was measured at a gate: what follows the gate is written and synced, and then the gate is opened
/// and synced.
pub(crate) fn append_at<D: Disk, G: Group>(
    disk: &mut D,
    gate: u64,
    digest: u64,
    group: &G,
    measure: &Measure,
) -> DiskDid
    requires is_open { D.is_open disk.old ≡ true }
    requires some { 1 ≤ length (G.lines group.now) }
    requires fit { AllByRecursion FitsLogLine (G.lines group.now) }
    requires lines { AllByRecursion IsLogLine (G.lines group.now) }
    requires room { gate + 17 + length (record_body (G.lines group.now)) ≤ LAST_LOG_GATE }
    requires is_measured { measure.now ≡ measured digest (G.lines group.now) }
    ensures is_open { D.is_open disk.new ≡ true }
    ensures told { WhereHistoryTold (D.told disk.old) (D.told disk.new)
        (AppendsHere result (record { at = gate; digest = digest }) (G.lines group.now)) }
    ensures faults { CountsDid result (D.faults disk.old) (D.faults disk.new) }
{
    match write_content(disk, gate, group, measure) {
        DiskDid::Done => match disk.sync() {
            DiskDid::Done => write_down(disk, gate, &[255]),
            DiskDid::Failed => DiskDid::Failed,
        },
        DiskDid::Failed => DiskDid::Failed,
    }
}
