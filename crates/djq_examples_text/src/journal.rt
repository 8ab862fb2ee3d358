ghost use Rattle.std.specs.Prelude.{◌≡◌, ◌≤◌, length, slice_get};
ghost use Rattle.std.specs.Option.{option_copied};

use djq_disk::{DiskCall, DiskDid, MemDisk};
use djq_journal::{Appended, Group, Journal, LINE_BYTES, Line, OneLine};
use std::test::Fail;

/// A journal without lines.
const EMPTY: &[u8] = b"DJQLOG1\n\0";

/// Lines that are logged one by one.
const ROW: [&[u8]; 3] = [b"rel r int", b"add r 7", b"add r 7"];

/// What the journal of these lines and three more opens to, from none of them on, each after a bar.
const TEXTS: [&[u8]; 5] = [
    b"",
    b"|rel r int",
    b"|rel r int|add r 7",
    b"|rel r int|add r 7|add r 7",
    b"|rel r int|add r 7|add r 7|a|bc|d",
];

/// Three lines that are logged together.
struct Three;

impl Group for Three {
    ghost use Rattle.std.specs.Prelude.{[], ◌∷◌};

    ghost lines = { λ _. (97 ∷ []) ∷ (98 ∷ 99 ∷ []) ∷ (100 ∷ []) ∷ [] };

    fn line(&self, i: usize) -> Option<&[u8]> {
        match i {
            0 => Some(b"a"),
            1 => Some(b"bc"),
            2 => Some(b"d"),
            _ => None,
        }
    }
}

/// One line, so many times, logged together.
#[derive(Drop)]
struct Many<'a> {
    line: &'a [u8],
    count: usize,
}

impl<'a> Group for Many<'a> {
    ghost use Rattle.std.specs.Prelude.{replicate};

    ghost lines = { λ g. replicate g.count g.line.now };

    fn line(&self, i: usize) -> Option<&[u8]> {
        if i < self.count {
            Some(self.line)
        } else {
            None
        }
    }
}

/// A journal without lines that was read to its end.
fn idle(disk: &mut MemDisk) -> Option<Journal> {
    let mut journal = Journal::first();
    match journal.next_line(disk, &mut [0; 4096]) {
        Line::End => Some(journal),
        Line::Got(_) | Line::BadLog(_) | Line::Failed => None,
    }
}

/// Logs the row.
fn keep_row(disk: &mut MemDisk) -> Option<Journal> {
    let mut journal = idle(disk)?;
    for line in ROW {
        if line.is_empty() || line.len() > LINE_BYTES {
            return None;
        }
        match journal.append_all(disk, &OneLine { line }) {
            Appended::Done(next) => journal = next,
            Appended::Failed | Appended::Full => return None,
        }
    }
    Some(journal)
}

/// Logs the row and three lines more. Returns whether all succeeded.
fn keep_all(disk: &mut MemDisk) -> bool {
    let Some(journal) = keep_row(disk) else {
        return false;
    };
    match journal.append_all(disk, &Three) {
        Appended::Done(_) => true,
        Appended::Failed | Appended::Full => false,
    }
}

/// Logs a line so many times, together. Returns whether all succeeded.
fn keep_many(disk: &mut MemDisk, line: &[u8], count: usize) -> bool
    requires some { 1 ≤ count }
    requires line { (1 ≤ length line.now) × (length line.now ≤ 4096) }
{
    let Some(journal) = idle(disk) else {
        return false;
    };
    match journal.append_all(disk, &Many { line, count }) {
        Appended::Done(_) => true,
        Appended::Failed | Appended::Full => false,
    }
}

/// What a file opens to, each line after a bar, or `None` if it is bad.
fn opened(rt: &HostRuntime, bytes: &[u8]) -> Result<Option<Vec<u8>>, Fail> {
    let mut disk = MemDisk::of(rt.alloc(), bytes)?;
    let mut journal = Journal::first();
    let mut text = Vec::new(rt.alloc());
    let mut buf = [0; 4096];
    for _ in 0..100 {
        match journal.next_line(&mut disk, &mut buf) {
            Line::Got(n) => {
                text.push(b'|')?;
                text.extend_from_slice(&buf[..n])?;
            }
            Line::End => return Ok(Some(text)),
            Line::BadLog(_) | Line::Failed => return Ok(None),
        }
    }
    Ok(None)
}

/// How many lines of the table a file opens to, as whole groups.
fn groups_of(rt: &HostRuntime, bytes: &[u8]) -> Result<Option<usize>, Fail> {
    let Some(found) = opened(rt, bytes)? else {
        return Ok(None);
    };
    for i in 0..TEXTS.len() {
        if TEXTS[i] == found.as_slice() {
            return Ok(Some(i));
        }
    }
    Ok(None)
}

/// How many syncs were done.
fn syncs(calls: &[DiskCall]) -> u64 {
    let mut done = 0u64;
    for call in calls {
        if let DiskCall::Syncing(DiskDid::Done) = call {
            done = done.saturating_add(1);
        }
    }
    done
}

/// Sets a byte, after zeros if the bytes ended earlier.
fn set_byte(bytes: &mut Vec<u8>, place: usize, byte: u8) -> Result<(), Fail> {
    if bytes.len() <= place {
        bytes.resize(place.saturating_add(1), 0)?;
    }
    if let Some(slot) = bytes.get_mut(place) {
        *slot = byte;
    }
    Ok(())
}

/// What a crash after these calls may leave: of the bytes written since the last sync so many, and
/// this one in place of each other, or what was there.
fn image(
    rt: &HostRuntime,
    calls: &[DiskCall],
    kept: usize,
    other: Option<u8>,
) -> Result<Vec<u8>, Fail> {
    let all = syncs(calls);
    let mut done = 0u64;
    let mut since = 0usize;
    let mut bytes = EMPTY.to_vec(rt.alloc())?;
    for call in calls {
        match call {
            DiskCall::Writing(at, piece, _) => {
                for (i, byte) in piece.as_slice().iter().enumerate() {
                    let place = (*at as usize).saturating_add(i);
                    if done == all {
                        since = since.saturating_add(1);
                    }
                    if since <= kept {
                        set_byte(&mut bytes, place, *byte)?;
                    } else if let Some(other) = other {
                        set_byte(&mut bytes, place, other)?;
                    }
                }
            }
            DiskCall::Syncing(DiskDid::Done) => done = done.saturating_add(1),
            _ => {}
        }
    }
    Ok(bytes)
}

/// Whether each image after these calls opens to whole groups, all that were acknowledged and at most
/// one more.
fn leaves_groups(rt: &HostRuntime, calls: &[DiskCall]) -> Result<bool, Fail> {
    let acknowledged = syncs(calls) / 2;
    for other in [None, Some(0), Some(1), Some(255)] {
        for kept in 0..30 {
            let bytes = image(rt, calls, kept, other)?;
            match groups_of(rt, &bytes)? {
                Some(found) => {
                    if (found as u64) < acknowledged
                        || (found as u64) > acknowledged.saturating_add(1)
                    {
                        return Ok(false);
                    }
                }
                None => return Ok(false),
            }
        }
    }
    Ok(true)
}

#[test]
fn a_row_takes_41_bytes(rt: HostRuntime) -> Result<(), Fail> {
    let mut disk = MemDisk::of(rt.alloc(), EMPTY)?;
    assert!(rt; keep_row(&mut disk).is_some());
    let file = b"DJQLOG1\n\x01\0\x09rel r int\x01\0\x07add r 7\x01\0\x07add r 7\0";
    assert!(rt; disk.bytes() == file.as_slice());
    let mut bytes = disk.bytes().to_vec(rt.alloc())?;
    assert!(rt; bytes.len() == 41);
    set_byte(&mut bytes, 10, 255)?;
    assert!(rt; groups_of(&rt, &bytes)? == None);
    set_byte(&mut bytes, 8, 0)?;
    assert!(rt; groups_of(&rt, &bytes)? == Some(0));
    Ok(())
}

#[test]
fn a_stop_at_each_call_leaves_whole_groups(rt: HostRuntime) -> Result<(), Fail> {
    let mut disk = MemDisk::of(rt.alloc(), EMPTY)?;
    assert!(rt; keep_all(&mut disk));
    let calls = disk.calls().ok_or("the record is lost")?;
    for n in 0..calls.len() {
        assert!(rt; leaves_groups(&rt, &calls[..n])?);
    }
    assert!(rt; groups_of(&rt, disk.bytes())? == Some(4));
    Ok(())
}

#[test]
fn a_call_that_fails_leaves_whole_groups(rt: HostRuntime) -> Result<(), Fail> {
    for n in 1..30 {
        let mut disk = MemDisk::of(rt.alloc(), EMPTY)?;
        disk.fail_at(n)?;
        let well = keep_all(&mut disk);
        let calls = disk.calls().ok_or("the record is lost")?;
        assert!(rt; well == (calls.len() < n as usize));
        assert!(rt; leaves_groups(&rt, calls)?);
    }
    Ok(())
}

/// A thousand records of 20 bytes are two pieces, and so five calls with the syncs and the gate.
#[test]
fn a_thousand_lines_are_written_in_two_pieces(rt: HostRuntime) -> Result<(), Fail> {
    let mut disk = MemDisk::of(rt.alloc(), EMPTY)?;
    assert!(rt; keep_many(&mut disk, b"add r 123456 7890", 1000));
    let mut sizes = Vec::new(rt.alloc());
    for call in disk.calls().ok_or("the record is lost")? {
        if let DiskCall::Writing(_, piece, _) = call {
            sizes.push(piece.as_slice().len())?;
        }
    }
    assert!(rt; sizes.as_slice() == [16_380, 3_620, 1].as_slice());
    Ok(())
}

/// Seven of the longest lines are three pieces. A stop at each call, with so many of the bytes written
/// that weren't synced, leaves all of them or none.
#[test]
fn a_stop_between_pieces_leaves_all_or_none(rt: HostRuntime) -> Result<(), Fail> {
    let mut disk = MemDisk::of(rt.alloc(), EMPTY)?;
    assert!(rt; keep_many(&mut disk, &[b'a'; 4096], 7));
    let calls = disk.calls().ok_or("the record is lost")?;
    let whole = 7 * 4097;
    for n in 0..calls.len() {
        for kept in [0, 1, 12_296, 12_297, 12_298, 24_594, 28_693] {
            for other in [None, Some(1), Some(255)] {
                let bytes = image(&rt, &calls[..n], kept, other)?;
                let text = opened(&rt, &bytes)?.ok_or("it doesn't open")?;
                assert!(rt; text.is_empty() || text.len() == whole);
            }
        }
    }
    let text = opened(&rt, disk.bytes())?.ok_or("it doesn't open")?;
    assert!(rt; text.len() == whole);
    Ok(())
}
