ghost use Rattle.std.specs.Prelude.{◌≡◌, ◌≤◌, length, slice_get};
ghost use Rattle.std.specs.Option.{option_copied};

use djq_disk::{DiskCall, DiskDid, MemDisk};
use djq_log_file::{Damage, Group, LogAppended, LogLine, LogOpened, Window, open_log};
use std::test::Fail;

/// A log of one group of one line.
const ONE: &[u8] = b"DJQLOG2\n\xff\0\0\0\0\0\0\x0b\x0b\x0d\x9d\xc8k\xd0\x8e\x7fn\0\x09rel r int\0";

/// The same followed by a group of two lines.
const TWO: &[u8] =
    b"DJQLOG2\n\xff\0\0\0\0\0\0\x0b\x0b\x0d\x9d\xc8k\xd0\x8e\x7fn\0\x09rel r int\xff\0\0\0\0\0\0\x12\x12L[)(\x84mH\xe7\0\x07add r 7\0\x07add r 8\0";

/// Two lines that are appended together.
struct Rows;

impl Group for Rows {
    ghost use Rattle.std.specs.Prelude.{[], ◌∷◌};

    ghost lines = { λ _. (97 ∷ 100 ∷ 100 ∷ 32 ∷ 114 ∷ 32 ∷ 55 ∷ []) ∷ (97 ∷ 100 ∷ 100 ∷ 32 ∷ 114 ∷ 32 ∷ 56 ∷ []) ∷ [] };

    fn line(&self, i: usize) -> Option<&[u8]> {
        match i {
            0 => Some(b"add r 7"),
            1 => Some(b"add r 8"),
            _ => None,
        }
    }
}

/// The lines of a log, each after a bar, and if it is bad the place and the reason.
fn read_all(
    rt: &HostRuntime,
    disk: &mut MemDisk,
    append: bool,
) -> Result<(Vec<u8>, Option<(u64, Damage)>), Fail> {
    let mut text = Vec::new(rt.alloc());
    let LogOpened::Second(mut reader) = open_log(disk) else {
        return Ok((text, None));
    };
    let mut window = Window::new(rt.alloc())?;
    let mut buf = [0; 65_535];
    for _ in 0..100 {
        match reader.next_line(disk, &mut window, &mut buf) {
            LogLine::Got(n) => {
                text.push(b'|')?;
                text.extend_from_slice(&buf[..n])?;
            }
            LogLine::End(end) => {
                if append {
                    if let LogAppended::Done(_) = end.append(disk, &Rows) {
                        text.push(b'.')?;
                    }
                }
                return Ok((text, None));
            }
            LogLine::Damaged(place, reason) => return Ok((text, Some((place, reason)))),
            LogLine::Failed => return Ok((text, None)),
        }
    }
    Ok((text, None))
}

/// What is read of a file.
fn read(rt: &HostRuntime, bytes: &[u8]) -> Result<(Vec<u8>, Option<(u64, Damage)>), Fail> {
    read_all(rt, &mut MemDisk::of(rt.alloc(), bytes)?, false)
}

/// Why a file is bad, and at which place, if one byte is another.
fn changed(rt: &HostRuntime, place: usize, byte: u8) -> Result<Option<(u64, Damage)>, Fail> {
    let mut bytes = TWO.to_vec(rt.alloc())?;
    if let Some(slot) = bytes.get_mut(place) {
        *slot = byte;
    }
    Ok(read(rt, &bytes)?.1)
}

#[test]
fn a_group_is_appended(rt: HostRuntime) -> Result<(), Fail> {
    let mut disk = MemDisk::of(rt.alloc(), ONE)?;
    let (text, damage) = read_all(&rt, &mut disk, true)?;
    assert!(rt; text.as_slice() == b"|rel r int.".as_slice());
    assert!(rt; damage == None);
    assert!(rt; disk.bytes() == TWO);
    let (text, damage) = read(&rt, TWO)?;
    assert!(rt; text.as_slice() == b"|rel r int|add r 7|add r 8".as_slice());
    assert!(rt; damage == None);
    Ok(())
}

#[test]
fn damage_has_its_place_and_reason(rt: HostRuntime) -> Result<(), Fail> {
    assert!(rt; changed(&rt, 0, b'd')? == None);
    assert!(rt; changed(&rt, 16, 12)? == Some((8, Damage::Length)));
    assert!(rt; changed(&rt, 24, 0)? == Some((8, Damage::Digest)));
    assert!(rt; changed(&rt, 40, b's')? == Some((36, Damage::Length)));
    assert!(rt; changed(&rt, 54, 8)? == Some((36, Damage::Lines)));
    assert!(rt; changed(&rt, 55, b'b')? == Some((36, Damage::Digest)));
    assert!(rt; changed(&rt, 71, 255)? == Some((71, Damage::Cut)));
    assert!(rt; read(&rt, &TWO[..60])?.1 == Some((36, Damage::Cut)));
    Ok(())
}

/// Which log a file is, as a letter.
fn kind_of(rt: &HostRuntime, bytes: &[u8]) -> Result<u8, Fail> {
    Ok(match open_log(&mut MemDisk::of(rt.alloc(), bytes)?) {
        LogOpened::Unbegun => b'u',
        LogOpened::First => b'1',
        LogOpened::Second(_) => b'2',
        LogOpened::Unknown => b'x',
        LogOpened::Failed => b'f',
    })
}

#[test]
fn a_file_is_not_begun_or_has_a_header(rt: HostRuntime) -> Result<(), Fail> {
    assert!(rt; kind_of(&rt, b"")? == b'u');
    assert!(rt; kind_of(&rt, b"DJQLOG")? == b'u');
    assert!(rt; kind_of(&rt, b"DJQLOG2\n")? == b'u');
    assert!(rt; kind_of(&rt, b"DJQLOG1\n\0")? == b'1');
    assert!(rt; kind_of(&rt, ONE)? == b'2');
    assert!(rt; kind_of(&rt, b"DJQLOX")? == b'x');
    assert!(rt; kind_of(&rt, b"DJQLOG3\n\0")? == b'x');
    Ok(())
}

/// Whether a sync was done after the call with this number.
fn is_synced(calls: &[DiskCall], number: usize) -> bool {
    for (i, call) in calls.iter().enumerate() {
        if let DiskCall::Syncing(DiskDid::Done) = call {
            if number < i {
                return true;
            }
        }
    }
    false
}

/// What is read of what a crash after these calls may leave: of the bytes of each write since the last sync so many, and
/// this one in place of each other.
fn left(
    rt: &HostRuntime,
    calls: &[DiskCall],
    kept: usize,
    other: u8,
) -> Result<(Vec<u8>, Option<(u64, Damage)>), Fail> {
    let mut bytes = ONE.to_vec(rt.alloc())?;
    for (i, call) in calls.iter().enumerate() {
        if let DiskCall::Writing(at, piece, _) = call {
            let synced = is_synced(calls, i);
            for (j, byte) in piece.as_slice().iter().enumerate() {
                let place = (*at as usize).saturating_add(j);
                if bytes.len() <= place {
                    bytes.resize(place.saturating_add(1), 0)?;
                }
                if let Some(slot) = bytes.get_mut(place) {
                    *slot = if synced || j < kept { *byte } else { other };
                }
            }
        }
    }
    read(rt, &bytes)
}

#[test]
fn a_crash_leaves_the_group_or_nothing(rt: HostRuntime) -> Result<(), Fail> {
    let mut disk = MemDisk::of(rt.alloc(), ONE)?;
    read_all(&rt, &mut disk, true)?;
    let calls = disk.calls().ok_or("the record is lost")?;
    for n in 0..calls.len() {
        for kept in [0, 1, 20, 60] {
            for other in [0, 1, 255] {
                let (text, damage) = left(&rt, &calls[..n], kept, other)?;
                assert!(rt; damage == None);
                assert!(rt;
                    text.as_slice() == b"|rel r int".as_slice()
                        || text.as_slice() == b"|rel r int|add r 7|add r 8".as_slice()
                );
            }
        }
    }
    Ok(())
}
