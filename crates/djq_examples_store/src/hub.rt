ghost use Rattle.std.specs.Prelude.{◌≡◌, []};

use crate::program::run_counted;
use djq_disk::{Disk, NoDisk};
use djq_io::{HubCall, MemHub, MemSink, MemSource};
use djq_program::Status;
use djq_schedule::{schedule_hub, sent_text};
use std::test::Fail;

/// Two sessions, whose lines are run in two rounds: the end of a session's input ends a round.
pub(crate) const ROUNDS: &[u8] =
    b"open 1\nopen 2\nsay 1 rel r int\nsay 1 add r 1\nsay 1 add r 2\nsay 2 add r 3\nsay 2 add r 4\nend 1\nsay 2 add r 5\nend 2";

/// What is sent in the first round. The lines were run by turns, as the numbers of the changes show.
pub(crate) const FIRST_ROUND: &[u8] =
    b"1< ok\n1< ok added 2 1\n1< ok added 4 1\n2< ok added 1 1\n2< ok added 3 1\n";

/// What is sent in both.
pub(crate) const BOTH_ROUNDS: &[u8] =
    b"1< ok\n1< ok added 2 1\n1< ok added 4 1\n2< ok added 1 1\n2< ok added 3 1\n2< ok added 5 1\n";

/// Serves a hub by these words, and gives the status and the lines that were sent.
pub(crate) fn serve_hub<D: Disk>(
    rt: &HostRuntime,
    words: &[&str],
    mut hub: MemHub,
    disk: &mut D,
) -> Result<(Status, Vec<u8>), Fail>
    requires { hub.ids.open_ids ≡ [] }
{
    let mut source = MemSource::new(Vec::new(rt.alloc()), 8192);
    let mut sink = MemSink::new(rt.alloc());
    let status = run_counted(rt, words, &mut source, &mut sink, &mut hub, disk);
    let past = hub.past().ok_or("the past is lost")?;
    Ok((status, sent_text(rt.alloc(), past)?))
}

/// Serves the sessions of a hub without a log.
fn serve(rt: &HostRuntime, hub: MemHub) -> Result<(Status, Vec<u8>), Fail>
    requires { hub.ids.open_ids ≡ [] }
{
    serve_hub(rt, &["djq", "serve", "a"], hub, &mut NoDisk)
}

/// Each session that has a line runs one, and then each runs its next; all is sent after the last.
#[test]
fn the_lines_of_a_round_are_run_by_turns(rt: HostRuntime) -> Result<(), Fail> {
    let hub = schedule_hub(rt.alloc(), ROUNDS).or(Err("the schedule is refused"))?;
    let (status, lines) = serve(&rt, hub)?;
    assert_eq!(rt; status, Status::Done);
    assert_eq!(rt; lines.as_slice(), BOTH_ROUNDS);
    Ok(())
}

/// A failed listen ends the server before a session opens.
#[test]
fn a_failed_listen_ends_the_server(rt: HostRuntime) -> Result<(), Fail> {
    let mut hub = schedule_hub(rt.alloc(), ROUNDS).or(Err("the schedule is refused"))?;
    hub.fail(HubCall::Listen(1))?;
    let (status, lines) = serve(&rt, hub)?;
    assert_eq!(rt; status, Status::HubFault);
    assert_eq!(rt; lines.as_slice(), b"".as_slice());
    Ok(())
}

/// No line of the round of a failed turn is run.
#[test]
fn a_failed_turn_ends_the_server(rt: HostRuntime) -> Result<(), Fail> {
    let mut hub = schedule_hub(rt.alloc(), ROUNDS).or(Err("the schedule is refused"))?;
    hub.fail(HubCall::Turn(6))?;
    let (status, lines) = serve(&rt, hub)?;
    assert_eq!(rt; status, Status::HubFault);
    assert_eq!(rt; lines.as_slice(), b"".as_slice());
    Ok(())
}

/// What was sent in an earlier round than that of a failed turn stays sent.
#[test]
fn a_failed_turn_leaves_what_was_sent(rt: HostRuntime) -> Result<(), Fail> {
    let mut hub = schedule_hub(rt.alloc(), ROUNDS).or(Err("the schedule is refused"))?;
    hub.fail(HubCall::Turn(9))?;
    let (status, lines) = serve(&rt, hub)?;
    assert_eq!(rt; status, Status::HubFault);
    assert_eq!(rt; lines.as_slice(), FIRST_ROUND);
    Ok(())
}

/// A send that finds its session closed ends that session alone.
#[test]
fn a_failed_send_ends_its_session(rt: HostRuntime) -> Result<(), Fail> {
    let mut hub = schedule_hub(rt.alloc(), ROUNDS).or(Err("the schedule is refused"))?;
    hub.fail(HubCall::Send(2, 1))?;
    let (status, lines) = serve(&rt, hub)?;
    assert_eq!(rt; status, Status::Done);
    assert_eq!(rt;
        lines.as_slice(),
        b"1< ok\n1< ok added 2 1\n1< ok added 4 1\n".as_slice()
    );
    Ok(())
}
