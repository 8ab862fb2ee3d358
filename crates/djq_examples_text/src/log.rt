ghost use Rattle.std.specs.Prelude.{◌≡◌, ◌≤◌, length, slice_get};
ghost use Rattle.std.specs.Option.{option_copied};

use djq_disk::MemDisk;
use djq_journal::{Group, OneLine};
use djq_log::{Kept, Log, LogEnd, LogFound, NextLine, find_log};
use djq_log_file::Window;
use std::test::Fail;

/// Two lines that are appended together.
struct Rows;

impl Group for Rows {
    ghost use Rattle.std.specs.Prelude.{[], ◌∷◌};

    ghost lines = { λ _. (97 ∷ 100 ∷ 100 ∷ 32 ∷ 114 ∷ 32 ∷ 55 ∷ []) ∷ (97 ∷ 100 ∷ 100 ∷ 32 ∷ 114 ∷ 32 ∷ 56 ∷ []) ∷ [] };

    fn line(&self, i: usize) -> Option<&[u8]> {
        match i {
            0 => Some(b"add r 7"),
            1 => Some(b"add r 8"),
            _ => None,
        }
    }
}

/// The end of the log that is made in the file.
fn made(rt: &HostRuntime, disk: &mut MemDisk) -> Result<Option<LogEnd>, Fail> {
    let LogFound::Made(end) = find_log(disk, Window::new(rt.alloc())?) else {
        return Ok(None);
    };
    Ok(Some(end))
}

/// The lines of the log that the file is, each after a bar and the last digit of its record's place, and its end, or
/// the place at which it is bad.
fn read(
    rt: &HostRuntime,
    disk: &mut MemDisk,
) -> Result<(Vec<u8>, Option<LogEnd>, Option<u64>), Fail> {
    let mut text = Vec::new(rt.alloc());
    let LogFound::Ready(found) = find_log(disk, Window::new(rt.alloc())?) else {
        return Ok((text, None, None));
    };
    let mut source = found;
    let mut buf = [0; 65_535];
    for _ in 0..100 {
        match source.next_line(disk, &mut buf) {
            NextLine::Got(next, n, place) => {
                source = next;
                text.push(b'|')?;
                text.push(b'0' + (place % 10) as u8)?;
                text.extend_from_slice(&buf[..n])?;
            }
            NextLine::End(end) => return Ok((text, Some(end), None)),
            NextLine::Bad(place) => return Ok((text, None, Some(place))),
            NextLine::Failed => return Ok((text, None, None)),
        }
    }
    Ok((text, None, None))
}

#[test]
fn a_new_log_is_of_the_second_format(rt: HostRuntime) -> Result<(), Fail> {
    let mut disk = MemDisk::of(rt.alloc(), b"")?;
    let mut log = Log::of(made(&rt, &mut disk)?.ok_or("no log was made")?);
    assert!(rt; disk.bytes() == b"DJQLOG2\n\0".as_slice());
    assert!(rt; log.keep(&mut disk, &OneLine { line: b"rel r int" }) == Kept::All);
    assert!(rt; log.keep(&mut disk, &Rows) == Kept::All);
    let mut bytes = disk.bytes().to_vec(rt.alloc())?;
    let (text, end, bad) = read(&rt, &mut disk)?;
    assert!(rt; text.as_slice() == b"|8rel r int|6add r 7|6add r 8".as_slice());
    assert!(rt; end.is_some() && bad == None);
    if let Some(slot) = bytes.get_mut(55) {
        *slot = b'b';
    }
    let (text, end, bad) = read(&rt, &mut MemDisk::of(rt.alloc(), &bytes)?)?;
    assert!(rt; text.as_slice() == b"|8rel r int".as_slice());
    assert!(rt; end.is_none() && bad == Some(36));
    Ok(())
}

#[test]
fn a_log_of_the_first_format_is_appended_to(rt: HostRuntime) -> Result<(), Fail> {
    let mut disk = MemDisk::of(rt.alloc(), b"DJQLOG1\n\x01\0\x09rel r int\0")?;
    let (text, end, _) = read(&rt, &mut disk)?;
    assert!(rt; text.as_slice() == b"|8rel r int".as_slice());
    let mut log = Log::of(end.ok_or("it has no end")?);
    assert!(rt; log.keep(&mut disk, &Rows) == Kept::All);
    let file = b"DJQLOG1\n\x01\0\x09rel r int\x01\0\x07add r 7\x01\0\x07add r 8\0";
    assert!(rt; disk.bytes() == file.as_slice());
    let (text, _, bad) = read(&rt, &mut MemDisk::of(rt.alloc(), &file[..38])?)?;
    assert!(rt; text.as_slice() == b"|8rel r int|0add r 7".as_slice());
    assert!(rt; bad == Some(30));
    Ok(())
}
