ghost use Rattle.std.specs.Prelude.{◌≡◌, ◌<◌, []};

use djq_counters::{Blanks, Ledgers, Steps};
use djq_disk::{Disk, NoDisk};
use djq_io::{MemHub, MemSink, MemSource, Sink, Source};
use djq_program::{Status, run_program};
use std::marker::Brand;
use std::test::Fail;

/// The words of the commands.
const RUN: [&str; 2] = ["djq", "run"];

const REPLAY: [&str; 2] = ["djq", "replay"];

/// A session with every command.
const SESSION: &[u8] =
    b"rel r int int\nadd r 1 2\nadd r 3 4\nadd r 1 2\ndel r 3 4\nquery q(x,y) <- r(x,y)\nopen c q\nnext c 2\nnext c 2\nclose c\n";

/// What it is answered.
const REPLIES: &[u8] =
    b"ok\nok added 1 1\nok added 2 1\nok added 2 2\nok removed 3 0\nok query 5\nok open\n= 1 2\nend\nend\nok\n";

fn counted<S: Source, K: Sink, D: Disk, L: Ledgers>(
    rt: &HostRuntime,
    blanks: Blanks,
    words: &[&str],
    source: &mut S,
    sink: &mut K,
    hub: &mut MemHub,
    disk: &mut D,
) -> Status
    requires listing { blanks.listing.name ≡ L.listing }
    requires update { blanks.update.name ≡ L.update }
    requires rows { blanks.rows.name ≡ L.rows }
    requires alone { hub.old.ids.open_ids ≡ [] }
{
    let mut steps = Steps::<L>::new(rt, blanks);
    run_program(rt.alloc(), words, source, sink, hub, disk, &mut steps)
}

/// Runs the program by these words, with counters of its own.
pub(crate) fn run_counted<S: Source, K: Sink, D: Disk>(
    rt: &HostRuntime,
    words: &[&str],
    source: &mut S,
    sink: &mut K,
    hub: &mut MemHub,
    disk: &mut D,
) -> Status
    requires { hub.old.ids.open_ids ≡ [] }
{
    counted::<S, K, D, Brand>(rt, Blanks::new(rt), words, source, sink, hub, disk)
}

/// Runs the program by these words, with neither a hub nor a disk.
fn run_words<S: Source, K: Sink>(
    rt: &HostRuntime,
    words: &[&str],
    source: &mut S,
    sink: &mut K,
) -> Status {
    let mut hub = MemHub::new(rt.alloc());
    run_counted(rt, words, source, sink, &mut hub, &mut NoDisk)
}

#[test]
fn answers_line_by_line_however_the_input_is_cut(rt: HostRuntime) -> Result<(), Fail> {
    let sessions = [
        (SESSION, REPLIES),
        (b"".as_slice(), b"".as_slice()),
        (b"\n\n   \n", b""),
        (b"rel r int\nadd r 1", b"ok\nerr 13 cut\n"),
        (
            b"rel r int\nbatch\nadd r 1\n",
            b"ok\nok batch\nok held 1\nerr 18 batch\n",
        ),
        (
            b"rel r int\nbatch\nadd r 1\ndone",
            b"ok\nok batch\nok held 1\nerr 13 cut\nerr 18 batch\n",
        ),
        (b"rel r int\nquit\nadd r 1\n", b"ok\nbye\n"),
        (b"rel r int\nstop\nadd r 1", b"ok\nbye\n"),
        (
            b"rel r int\r\nadd r 1\r\n\r\nadd r 1\r\n",
            b"ok\nok added 1 1\nok added 1 2\n",
        ),
    ];
    for (input, replies) in sessions {
        for most in [1, 2, 3, 8192] {
            let mut source = MemSource::new(input.to_vec(rt.alloc())?, most);
            let mut sink = MemSink::new(rt.alloc());
            assert_eq!(rt;
                run_words(&rt, &RUN, &mut source, &mut sink),
                Status::Done,
                "at {most}"
            );
            assert_eq!(rt; sink.taken(), Some(replies), "at {most}");
        }
    }
    Ok(())
}

/// Runs the session over a sink whose write of this number fails, and returns how many bytes it accepted; or, if
/// the status isn't that of a failed write, a number that is never right.
fn written_before(rt: &HostRuntime, write: u64) -> Result<usize, Fail>
    requires { 0 < write }
{
    let mut source = MemSource::new(SESSION.to_vec(rt.alloc())?, 8192);
    let mut sink = MemSink::new(rt.alloc());
    sink.fail_at(write)?;
    let status = run_words(rt, &RUN, &mut source, &mut sink);
    let taken = sink.taken().ok_or("the record is lost")?;
    Ok(if status == Status::WriteFault {
        taken.len()
    } else {
        usize::MAX
    })
}

/// How many bytes of the replies are written if the first write fails, the second, and so on.
const WRITTEN: [usize; 10] = [0, 3, 16, 29, 42, 57, 68, 76, 86, 90];

/// The replies to the commands before the failed write are written, and nothing else: each command's are one write.
#[test]
fn a_failed_write_ends_the_program(rt: HostRuntime) -> Result<(), Fail> {
    for at in 0..WRITTEN.len() {
        assert!(rt; written_before(&rt, at as u64 + 1)? == WRITTEN[at]);
    }
    Ok(())
}

/// So it is with the lines of other commands.
#[test]
fn a_failed_write_ends_what_is_no_session(rt: HostRuntime) -> Result<(), Fail> {
    for words in [["djq", "fly"].as_slice(), &REPLAY] {
        let mut source = MemSource::new(b"open 1\nsay 2 x\n".to_vec(rt.alloc())?, 8192);
        let mut sink = MemSink::new(rt.alloc());
        sink.fail_at(1)?;
        assert!(rt; run_words(&rt, words, &mut source, &mut sink) == Status::WriteFault);
        assert!(rt; sink.taken() == Some(b"".as_slice()));
    }
    Ok(())
}

/// What was read before the failed read is run and answered.
#[test]
fn a_failed_read_ends_the_program(rt: HostRuntime) -> Result<(), Fail> {
    let rows = [
        (RUN.as_slice(), 8192, 1, b"".as_slice()),
        (&RUN, 8192, 2, REPLIES),
        (&RUN, 15, 2, b"ok\n"),
        (&REPLAY, 8192, 1, b""),
    ];
    for (words, most, read, replies) in rows {
        let mut source = MemSource::new(SESSION.to_vec(rt.alloc())?, most);
        source.fail_at(read)?;
        let mut sink = MemSink::new(rt.alloc());
        assert!(rt; run_words(&rt, words, &mut source, &mut sink) == Status::ReadFault);
        assert!(rt; sink.taken() == Some(replies));
    }
    Ok(())
}
