use crate::hub::{BOTH_ROUNDS, FIRST_ROUND, ROUNDS, serve_hub};
use crate::program::run_counted;
use djq_disk::{DiskCall, DiskDid, MemDisk};
use djq_io::{MemHub, MemSink, MemSource};
use djq_program::Status;
use djq_schedule::schedule_hub;
use std::test::Fail;

/// The file after two rounds: the lines in the order in which they were run.
const ROUNDS_FILE: &[u8] =
    b"DJQLOG2\n\xff\0\0\0\0\0\0//\xb4\x07\x13\xde\x0fR\xe8\xb4\0\x09rel r int\0\x07add r 3\0\x07add r 1\0\x07add r 4\0\x07add r 2\xff\0\0\0\0\0\0\x09\x09\xff\xb6\x93ZB\xb1\xc7\x13\0\x07add r 5\0";

/// Three lines that are logged, and one that isn't.
const ROW: &[u8] = b"open 1\nsay 1 rel r int\nsay 1 add r 7\nsay 1 add r 7\nsay 1 del r 9\n";

/// What they are answered.
const ROW_LINES: &[u8] = b"1< ok\n1< ok added 1 1\n1< ok added 1 2\n1< ok absent 1\n";

/// Lines whose answers show how many lines of the row were found.
const PROBE: &[u8] = b"open 1\nsay 1 del r 7\nsay 1 del r 7\nsay 1 del r 7\n";

/// The file of a log of the first format, with one line.
const FIRST_FORMAT: &[u8] = b"DJQLOG1\n\x01\0\x09rel r int\0";

/// These answers, by that number.
const PROBED: [&[u8]; 4] = [
    b"1< err 3 no relation\n1< err 3 no relation\n1< err 3 no relation\n",
    b"1< ok absent 0\n1< ok absent 0\n1< ok absent 0\n",
    b"1< ok removed 2 0\n1< ok absent 2\n1< ok absent 2\n",
    b"1< ok removed 1 1\n1< ok removed 2 0\n1< ok absent 2\n",
];

/// Two lines that are logged, and a transaction that deletes a row and inserts another.
const TRANSACTION: &[u8] =
    b"open 1\nsay 1 rel r int\nsay 1 add r 7\nsay 1 batch\nsay 1 del r 7\nsay 1 add r 8\nsay 1 done 2\n";

/// What they are answered.
const TRANSACTION_LINES: &[u8] =
    b"1< ok\n1< ok added 1 1\n1< ok batch\n1< ok held 1\n1< ok held 2\n1< ok done 2 2\n";

/// The file after them. Of `done` its number isn't logged.
const TRANSACTION_FILE: &[u8] =
    b"DJQLOG2\n\xff\0\0\0\0\0\0\x0b\x0b\x0d\x9d\xc8k\xd0\x8e\x7fn\0\x09rel r int\xff\0\0\0\0\0\0\x09\x09W\x19\xfa\xf5\xab\xdf\xbfg\0\x07add r 7\xff\0\0\0\0\0\0\x1f\x1fG}\xcb\xe8.\xdcp\x1a\0\x05batch\0\x07del r 7\0\x07add r 8\0\x04done\0";

/// The place of the record of the transaction, with its gate.
const TRANSACTION_PLACE: usize = 62;

/// Lines whose answers show which of them were found: none, the first, the first two, or all.
const TRANSACTION_PROBE: &[u8] = b"open 1\nsay 1 del r 7\nsay 1 del r 8\n";

/// These answers.
const TRANSACTION_PROBED: [&[u8]; 4] = [
    b"1< err 3 no relation\n1< err 3 no relation\n",
    b"1< ok absent 0\n1< ok absent 0\n",
    b"1< ok removed 2 0\n1< ok absent 2\n",
    b"1< ok absent 2\n1< ok removed 3 0\n",
];

/// Replays a schedule with the log on the disk, and gives the status and what was written.
fn replay_logged(
    rt: &HostRuntime,
    disk: &mut MemDisk,
    schedule: &[u8],
) -> Result<(Status, Vec<u8>), Fail> {
    let mut hub = MemHub::new(rt.alloc());
    let mut source = MemSource::new(schedule.to_vec(rt.alloc())?, 8192);
    let mut sink = MemSink::new(rt.alloc());
    let words = ["djq", "replay", "--log", "j"];
    let status = run_counted(rt, &words, &mut source, &mut sink, &mut hub, disk);
    let taken = sink.taken().ok_or("the record is lost")?;
    Ok((status, taken.to_vec(rt.alloc())?))
}

/// How many groups of lines were found on a disk with these bytes, by what it answers to a probe; or
/// `None` if it is none of these answers.
fn groups_found(
    rt: &HostRuntime,
    bytes: &[u8],
    probe: &[u8],
    probed: &[&[u8]],
) -> Result<Option<u64>, Fail> {
    let mut disk = MemDisk::of(rt.alloc(), bytes)?;
    let (_, lines) = replay_logged(rt, &mut disk, probe)?;
    let mut found = 0u64;
    for answers in probed {
        if *answers == lines.as_slice() {
            return Ok(Some(found));
        }
        found = found.saturating_add(1);
    }
    Ok(None)
}

/// Whether a call is a sync that was done, of the file or of the next one.
fn is_sync(call: &DiskCall) -> bool {
    matches!(
        call,
        DiskCall::Syncing(DiskDid::Done) | DiskCall::SyncingNext(DiskDid::Done)
    )
}

/// How many syncs were done.
fn syncs(calls: &[DiskCall]) -> u64 {
    let mut done = 0u64;
    for call in calls {
        if is_sync(call) {
            done = done.saturating_add(1);
        }
    }
    done
}

/// The bytes after these calls, with what was written since the last sync or without it. The next file counts from
/// its replacement on.
fn image(rt: &HostRuntime, calls: &[DiskCall], unsynced: bool) -> Result<Vec<u8>, Fail> {
    let all = syncs(calls);
    let mut done = 0u64;
    let mut bytes = Vec::new(rt.alloc());
    let mut next = Vec::new(rt.alloc());
    for call in calls {
        if is_sync(call) {
            done = done.saturating_add(1);
        }
        match call {
            DiskCall::Writing(at, piece, _) => {
                if unsynced || done < all {
                    put(&mut bytes, *at as usize, piece.as_slice())?;
                }
            }
            DiskCall::WritingNext(at, piece, _) => put(&mut next, *at as usize, piece.as_slice())?,
            DiskCall::Replacing(DiskDid::Done) => {
                bytes.clear();
                bytes.extend_from_slice(&next)?;
            }
            _ => {}
        }
    }
    Ok(bytes)
}

/// Writes a piece into bytes, after zeros if they ended earlier.
fn put(bytes: &mut Vec<u8>, at: usize, piece: &[u8]) -> Result<(), Fail> {
    for (i, byte) in piece.iter().enumerate() {
        let place = at.saturating_add(i);
        if bytes.len() <= place {
            bytes.resize(place.saturating_add(1), 0)?;
        }
        if let Some(slot) = bytes.get_mut(place) {
            *slot = *byte;
        }
    }
    Ok(())
}

/// The first call at which a crash leaves other than the groups that were answered and at most one more.
/// Two syncs open and make the log, and two more append each group, after which it is answered.
fn first_loss(
    rt: &HostRuntime,
    calls: &[DiskCall],
    probe: &[u8],
    probed: &[&[u8]],
) -> Result<Option<usize>, Fail> {
    for n in 0..calls.len() {
        let answered = syncs(&calls[..n]).saturating_sub(2) / 2;
        for unsynced in [false, true] {
            let bytes = image(rt, &calls[..n], unsynced)?;
            let found = groups_found(rt, &bytes, probe, probed)?.ok_or("the log is bad")?;
            if found < answered || answered.saturating_add(1) < found {
                return Ok(Some(n));
            }
        }
    }
    Ok(None)
}

/// A crash leaves both lines of a transaction done or none: never is the one row deleted and the other missing.
#[test]
fn a_crash_at_each_call_leaves_whole_transactions(rt: HostRuntime) -> Result<(), Fail> {
    let mut disk = MemDisk::of(rt.alloc(), b"")?;
    let (status, lines) = replay_logged(&rt, &mut disk, TRANSACTION)?;
    assert_eq!(rt; status, Status::Done);
    assert_eq!(rt; lines.as_slice(), TRANSACTION_LINES);
    assert_eq!(rt; disk.bytes(), TRANSACTION_FILE);
    let calls = disk.calls().ok_or("the record is lost")?;
    assert!(rt; syncs(calls) == 8);
    assert_eq!(rt;
        first_loss(&rt, calls, TRANSACTION_PROBE, &TRANSACTION_PROBED)?,
        None
    );
    Ok(())
}

/// If a call fails nothing is answered that isn't in the log, and all that was answered is found.
#[test]
fn a_call_that_fails_ends_the_program(rt: HostRuntime) -> Result<(), Fail> {
    for n in 1..40 {
        let mut disk = MemDisk::of(rt.alloc(), b"")?;
        disk.fail_at(n)?;
        let (status, lines) = replay_logged(&rt, &mut disk, ROW)?;
        let made = disk.calls().ok_or("the record is lost")?.len();
        let failed = n <= made as u64;
        assert!(rt; (status == Status::DiskFault) == failed, "at {n}");
        assert!(rt; ROW_LINES.starts_with(lines.as_slice()), "at {n}");
        let answered = lines.iter().filter(|byte| **byte == b'\n').count() as u64;
        let found = groups_found(&rt, disk.bytes(), PROBE, &PROBED)?.ok_or("the log is bad")?;
        assert!(rt; answered.min(3) <= found, "at {n}");
    }
    Ok(())
}

/// Serves two rounds with the log on the disk.
fn serve_rounds(rt: &HostRuntime, disk: &mut MemDisk) -> Result<(Status, Vec<u8>), Fail> {
    let hub = schedule_hub(rt.alloc(), ROUNDS).or(Err("the schedule is refused"))?;
    serve_hub(rt, &["djq", "serve", "a", "--log", "j"], hub, disk)
}

/// The five lines of two sessions in the first round are one commit, of two syncs; and so is the line of the
/// second. Two syncs more open and make the log.
#[test]
fn a_round_is_one_commit_for_all_sessions(rt: HostRuntime) -> Result<(), Fail> {
    let mut disk = MemDisk::of(rt.alloc(), b"")?;
    let (status, lines) = serve_rounds(&rt, &mut disk)?;
    assert_eq!(rt; status, Status::Done);
    assert_eq!(rt; lines.as_slice(), BOTH_ROUNDS);
    assert_eq!(rt; disk.bytes(), ROUNDS_FILE);
    let calls = disk.calls().ok_or("the record is lost")?;
    assert!(rt; syncs(calls) == 6);
    Ok(())
}

/// If a call of a commit fails nothing of the commit is sent, to any session; and what an earlier one sent
/// stays sent.
#[test]
fn nothing_of_a_failed_commit_is_sent(rt: HostRuntime) -> Result<(), Fail> {
    let mut disk = MemDisk::of(rt.alloc(), b"")?;
    serve_rounds(&rt, &mut disk)?;
    let calls = disk.calls().ok_or("the record is lost")?;
    for n in 0..calls.len() {
        let mut failing = MemDisk::of(rt.alloc(), b"")?;
        failing.fail_at(n as u64 + 1)?;
        let (status, lines) = serve_rounds(&rt, &mut failing)?;
        assert!(rt; status == Status::DiskFault, "at {n}");
        let sent = if syncs(&calls[..n]) < 4 {
            b"".as_slice()
        } else {
            FIRST_ROUND
        };
        assert_eq!(rt; lines.as_slice(), sent, "at {n}");
    }
    Ok(())
}

/// A log of the first format is read, and continues as it is.
#[test]
fn a_log_of_the_first_format_goes_on(rt: HostRuntime) -> Result<(), Fail> {
    let mut disk = MemDisk::of(rt.alloc(), FIRST_FORMAT)?;
    let (status, lines) = replay_logged(&rt, &mut disk, b"open 1\nsay 1 add r 7\n")?;
    assert_eq!(rt; status, Status::Done);
    assert!(rt; lines.as_slice() == b"1< ok added 1 1\n".as_slice());
    let file = b"DJQLOG1\n\x01\0\x09rel r int\x01\0\x07add r 7\0".as_slice();
    assert!(rt; disk.bytes() == file);
    Ok(())
}

/// A byte of the last record that changed is seen, at the record's gate; and its gate, once closed, ends the log.
#[test]
fn a_changed_byte_is_seen(rt: HostRuntime) -> Result<(), Fail> {
    for place in TRANSACTION_PLACE..TRANSACTION_FILE.len().saturating_sub(1) {
        let mut bytes = TRANSACTION_FILE.to_vec(rt.alloc())?;
        if let Some(byte) = bytes.get_mut(place) {
            *byte ^= 255;
        }
        let mut disk = MemDisk::of(rt.alloc(), &bytes)?;
        let (status, _) = replay_logged(&rt, &mut disk, TRANSACTION_PROBE)?;
        let seen = if place == TRANSACTION_PLACE {
            Status::Done
        } else {
            Status::BadLog(TRANSACTION_PLACE as u64)
        };
        assert!(rt; status == seen, "at {place}");
    }
    Ok(())
}
