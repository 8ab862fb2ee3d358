ghost use Rattle.std.specs.Prelude.{◌≡◌, ℕ, List, ◌+◌, ◌<◌, length, Option, Ok, Err, MatchResult};
ghost use Rattle.djq_io.specs.Source.{SourceReading};
ghost use Rattle.djq_machine.specs.Call.{counts};
ghost use Rattle.djq_run_laws.specs.Course.{outside};
ghost use Rattle.djq_schedule.specs.Schedule.{schedule_lines};
ghost use Rattle.djq_schedule.specs.Made.{turns_of, ScheduleIsMade};
ghost use Rattle.djq_schedule.specs.Sent.{outside_line};
ghost use Rattle.djq_program_laws.specs.Logged.{disk_seen, log_seen};
ghost use Rattle.djq_program_laws.specs.Parts.{TellsWhole, TellsNone};
ghost use Rattle.djq_program_laws.specs.Replay.{SourceReadsWhole, StopsReading, ReplayComesTo, ComesToNothing, first_fault};
ghost use Rattle.djq_program_laws.specs.Replay.{Wrote, WritesFor, ReplayEnds};

use crate::log::open_log;
use crate::program::ended_status;
use djq_core::Core;
use djq_counters::{Ledgers, Steps};
use djq_disk::Disk;
use djq_io::limits::{MOST_READS, READ_BYTES};
use djq_io::{MemHub, Read, Sink, Source, SteadyHub, Written, write_all};
use djq_run::Status;
use djq_schedule::{ScheduleRefusal, count_lines, outside_line, schedule_hub, sent_text};
use djq_serve::serve_logged;
use std::alloc::Global;

/// Reads a schedule from the source, serves its hub with the log at the path, if there is one, and
/// writes each line that was sent to a session, in the order of the sends. What is served are the
/// turns of the schedule, in order, until none is left, a session sent `stop`, or the log failed. A
/// schedule with a line outside the grammar isn't run, and the first such line is reported. Out of memory
/// nothing is written.
pub(crate) fn replay<S: Source, K: Sink, D: Disk, L: Ledgers>(
    alloc: Global,
    path: Option<&str>,
    source: &mut S,
    sink: &mut K,
    disk: &mut D,
    steps: &mut Steps<L>,
) -> Status
    ensures { ReplayEnds (log_seen path.entry (disk_seen (D.told disk.old) (D.faults disk.old))
        (disk_seen (D.told disk.new) (D.faults disk.new)))
        result
        (outside (S.told source.old) (S.faults source.old) (K.told sink.old) (K.faults sink.old)
        (counts steps.old.listing steps.old.update steps.old.rows))
        (outside (S.told source.new) (S.faults source.new) (K.told sink.new) (K.faults sink.new)
        (counts steps.new.listing steps.new.update steps.new.rows)) }
{
    match read_whole(alloc, source) {
        Ok(bytes) => replay_schedule(alloc, &bytes, path, sink, disk, steps),
        Err(status) => status,
    }
}

/// All bytes of the source; or the status for which reading stopped before its end.
fn read_whole<S: Source>(alloc: Global, source: &mut S) -> Result<Vec<u8>, Status>
    ensures { MatchResult result
        (λ bytes. SourceReadsWhole (S.told source.old) (S.told source.new) (S.faults source.old)
        (S.faults source.new) bytes.items)
        (λ status. StopsReading status (S.told source.old) (S.told source.new) (S.faults source.old)
        (S.faults source.new)) }
{
    match vec![in alloc; 0; READ_BYTES] {
        Ok(mut buffer) => read_pieces(alloc, source, &mut buffer),
        Err(_) => Err(Status::NoMemory),
    }
}

/// The same, piece by piece through a buffer.
fn read_pieces<S: Source>(
    alloc: Global,
    source: &mut S,
    buffer: &mut [u8],
) -> Result<Vec<u8>, Status>
    requires { 0 < length buffer.old }
    ensures { MatchResult result
        (λ bytes. SourceReadsWhole (S.told source.old) (S.told source.new) (S.faults source.old)
        (S.faults source.new) bytes.items)
        (λ status. StopsReading status (S.told source.old) (S.told source.new) (S.faults source.old)
        (S.faults source.new)) }
{
    let mut bytes = Vec::new(alloc);
    for _ in 0..MOST_READS {
        match source.read(buffer) {
            Read::Got(count) => {
                if bytes.extend_from_slice(&buffer[..count]).is_err() {
                    return Err(Status::NoMemory);
                }
            }
            Read::End => return Ok(bytes),
            Read::Failed => return Err(Status::ReadFault),
        }
    }
    Err(Status::TurnsUsed)
}

/// Replays a schedule, and writes its outcome.
fn replay_schedule<K: Sink, D: Disk, L: Ledgers>(
    alloc: Global,
    bytes: &[u8],
    path: Option<&str>,
    sink: &mut K,
    disk: &mut D,
    steps: &mut Steps<L>,
) -> Status
    ensures { WritesFor (log_seen path.entry (disk_seen (D.told disk.old) (D.faults disk.old))
        (disk_seen (D.told disk.new) (D.faults disk.new)))
        result bytes.now (K.told sink.old) (K.faults sink.old)
        (counts steps.old.listing steps.old.update steps.old.rows) (K.told sink.new)
        (K.faults sink.new) (counts steps.new.listing steps.new.update steps.new.rows) }
{
    match make_text(alloc, bytes, path, disk, steps) {
        Ok((text, status)) => write_text(sink, &text, status),
        Err(status) => status,
    }
}

/// Writes the text. The status is that of a text that is written whole.
pub(crate) fn write_text<K: Sink>(sink: &mut K, text: &[u8], status: Status) -> Status
    ensures { Wrote result status text.now (K.told sink.old) (K.faults sink.old)
        (K.told sink.new) (K.faults sink.new) }
{
    match write_all(sink, text) {
        Written::All => status,
        Written::Failed(_) => first_fault(status, Status::WriteFault),
    }
}

/// The status if two things failed: the log's, if it failed as the schedule was run, and else that
/// of what failed later.
fn first_fault(status: Status, later: Status) -> Status
    ensures { result ≡ first_fault status later }
{
    match status {
        Status::DiskFault | Status::LogFull => status,
        _ => later,
    }
}

/// What is to be written for a schedule, and the status once it is written.
///
/// # Errors
///
/// The status if nothing is to be written.
fn make_text<D: Disk, L: Ledgers>(
    alloc: Global,
    bytes: &[u8],
    path: Option<&str>,
    disk: &mut D,
    steps: &mut Steps<L>,
) -> Result<(Vec<u8>, Status), Status>
    ensures { MatchResult result
        (λ made. ReplayComesTo (log_seen path.entry (disk_seen (D.told disk.old) (D.faults disk.old))
        (disk_seen (D.told disk.new) (D.faults disk.new)))
        (turns_of bytes.now) bytes.now (counts steps.old.listing steps.old.update steps.old.rows)
        (counts steps.new.listing steps.new.update steps.new.rows) made.0.items made.1)
        (λ status. ComesToNothing (log_seen path.entry (disk_seen (D.told disk.old) (D.faults disk.old))
        (disk_seen (D.told disk.new) (D.faults disk.new)))
        status (turns_of bytes.now) bytes.now (counts steps.old.listing steps.old.update steps.old.rows)
        (counts steps.new.listing steps.new.update steps.new.rows)) }
{
    match schedule_hub(alloc, bytes) {
        Ok(hub) => serve_schedule(alloc, bytes, hub, path, disk, steps),
        Err(ScheduleRefusal::Outside(number)) => tell_outside(alloc, number),
        Err(ScheduleRefusal::NoMem) => Err(Status::NoMemory),
    }
}

/// The line that reports which line of a schedule is the first outside the grammar, with its status.
///
/// # Errors
///
/// `NoMemory` out of memory.
fn tell_outside(alloc: Global, number: u64) -> Result<(Vec<u8>, Status), Status>
    ensures { MatchResult result
        (λ made. (made.0.items ≡ outside_line number) × (made.1 ≡ Status.Schedule number))
        (λ status. status ≡ Status.NoMemory) }
{
    match outside_line(alloc, number) {
        Ok(text) => Ok((text, Status::Schedule(number))),
        Err(_) => Err(Status::NoMemory),
    }
}

/// Serves the hub of a schedule, for one turn more than it has lines and one a round, and returns what was sent.
fn serve_schedule<D: Disk, L: Ledgers>(
    alloc: Global,
    bytes: &[u8],
    hub: MemHub,
    path: Option<&str>,
    disk: &mut D,
    steps: &mut Steps<L>,
) -> Result<(Vec<u8>, Status), Status>
    requires { ScheduleIsMade bytes.now hub }
    ensures { MatchResult result
        (λ made. ReplayComesTo (log_seen path.entry (disk_seen (D.told disk.old) (D.faults disk.old))
        (disk_seen (D.told disk.new) (D.faults disk.new)))
        (Ok hub.script.turns) bytes.now (counts steps.old.listing steps.old.update steps.old.rows)
        (counts steps.new.listing steps.new.update steps.new.rows) made.0.items made.1)
        (λ status. ComesToNothing (log_seen path.entry (disk_seen (D.told disk.old) (D.faults disk.old))
        (disk_seen (D.told disk.new) (D.faults disk.new)))
        status (Ok hub.script.turns) bytes.now (counts steps.old.listing steps.old.update steps.old.rows)
        (counts steps.new.listing steps.new.update steps.new.rows)) }
{
    let Ok(mut machine) = Core::new(alloc) else {
        return Err(Status::NoMemory);
    };
    let Ok(mut buffer) = vec![in alloc; 0; READ_BYTES] else {
        return Err(Status::NoMemory);
    };
    let mut log = match open_log(alloc, &mut machine, disk, path, steps) {
        Ok(log) => log,
        Err(status) => return Err(status),
    };
    let mut hub = SteadyHub::of(hub);
    let most = count_lines(bytes) + 1;
    let served = serve_logged(
        &mut machine,
        &mut hub,
        disk,
        &mut log,
        &mut buffer,
        most,
        1,
        steps,
    );
    tell_sent(alloc, &hub, ended_status(served))
}

/// The lines that a hub was sent, with the status.
///
/// # Errors
///
/// The status if there is no memory for them.
fn tell_sent(alloc: Global, hub: &SteadyHub, status: Status) -> Result<(Vec<u8>, Status), Status>
    ensures { MatchResult result (λ made. TellsWhole made.0.items made.1 hub.now.past status)
        (λ lacking. TellsNone lacking status) }
{
    let Some(past) = hub.past() else {
        return Err(first_fault(status, Status::NoMemory));
    };
    match sent_text(alloc, past) {
        Ok(text) => Ok((text, status)),
        Err(_) => Err(first_fault(status, Status::NoMemory)),
    }
}
