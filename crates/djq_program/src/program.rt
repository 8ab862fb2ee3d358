ghost use Rattle.std.specs.Prelude.{◌≡◌, ℕ, [], true, Option, map};
ghost use Rattle.djq_io.specs.Source.{SourceReading};
ghost use Rattle.djq_machine.specs.State.{opening};
ghost use Rattle.djq_machine.specs.Call.{Counts, counts};
ghost use Rattle.djq_run_laws.specs.Course.{outside};
ghost use Rattle.djq_value.specs.Literal.{is_name};
ghost use Rattle.djq_serve.specs.Told.{hub_shown};
ghost use Rattle.djq_program_laws.specs.Logged.{disk_seen, log_seen, served_status};
ghost use Rattle.djq_program_laws.specs.Mirror.{mirror_status, MirrorsSource};
ghost use Rattle.djq_program_laws.specs.Ends.{ProgramEnds, AsksToServe, AsksForLog, Serves, HubEnds, WritesUsage, hub_seen};

use crate::load::generate;
use crate::log::open_log;
use crate::replay::replay;
use djq_cli::{Asked, read_words};
use djq_core::Core;
use djq_counters::{Ledgers, Steps};
use djq_disk::{Disk, NoDisk};
use djq_io::limits::READ_BYTES;
use djq_io::{Hub, Listened, Sink, Source, Written, write_all};
use djq_mirror::{Mirrored, run_mirror};
use djq_model::Name;
use djq_program_laws::limits::ROUND_TURNS;
use djq_run::{Status, run_session};
use djq_serve::{Served, serve_logged};
use std::alloc::Global;

/// The commands.
const USAGE: &[u8] =
    b"usage: djq run | serve ADDR [--turns N] [--log PATH] | replay [--log PATH] | gen N SEED | mirror Q\n";

/// Runs the program by the words of its command line, of which the first is its name.
///
/// `run` serves one session from the source to the sink. `serve` lets the hub listen at an address,
/// and serves the sessions that open. `replay` serves a hub of its own, whose turns are those of the
/// schedule in the source, in order. Both start from what the lines of their log give, if they
/// have one, and append to it what changes that, a commit at a time, before anything of the commit is sent.
/// `gen` runs a generated load, lists the answers of its query to their end, and writes its totals.
/// `mirror` writes the answers of a query that one session was sent, by the bytes alone that it was sent,
/// which the source has. Other words are answered by the usage line. Out of memory no more is counted of
/// listings than the part that was done may cost.
///
/// Sessions are served in rounds, of at most [`ROUND_TURNS`] turns under `serve` and of one under `replay`.
/// `ServeEnds` of djq_serve, which is part of the contract, defines what rounds promise. Between two lines of
/// a session each other one that has a line runs one (`fair`). No line waits for the next round (`prompt`).
/// And what lines log is cut into commits, each of which is logged as one group (`committed`).
///
/// The hub has opened no session before, and words other than those of `serve` leave it as it is.
/// Words without a log leave the disk as it is.
pub fn run_program<S: Source, K: Sink, H: Hub, D: Disk, L: Ledgers>(
    alloc: Global,
    words: &[&str],
    source: &mut S,
    sink: &mut K,
    hub: &mut H,
    disk: &mut D,
    steps: &mut Steps<L>,
) -> Status
    requires alone { (H.ids hub.old).open_ids ≡ [] }
    ensures ends { ProgramEnds result (map (λ word. word.now) words.entry.now)
        (outside (S.told source.old) (S.faults source.old) (K.told sink.old) (K.faults sink.old)
        (counts steps.old.listing steps.old.update steps.old.rows))
        (hub_seen (hub_shown (H.past hub.old) (H.script hub.old) (H.ids hub.old)) (H.faults hub.old))
        (disk_seen (D.told disk.old) (D.faults disk.old))
        (outside (S.told source.new) (S.faults source.new) (K.told sink.new) (K.faults sink.new)
        (counts steps.new.listing steps.new.update steps.new.rows))
        (hub_seen (hub_shown (H.past hub.new) (H.script hub.new) (H.ids hub.new)) (H.faults hub.new))
        (disk_seen (D.told disk.new) (D.faults disk.new)) }
    ensures spared { (AsksToServe (map (λ word. word.now) words.entry.now) → ⊥)
        → hub.new ≡ hub.old }
    ensures unasked { (AsksForLog (map (λ word. word.now) words.entry.now) → ⊥)
        → disk.new ≡ disk.old }
{
    match read_words(alloc, words) {
        Ok(Some(Asked::Run)) => serve_source(alloc, source, sink, steps),
        Ok(Some(Asked::Serve(addr, turns, None))) => {
            serve_hub(alloc, addr, turns, None, hub, &mut NoDisk, steps)
        }
        Ok(Some(Asked::Serve(addr, turns, path))) => {
            serve_hub(alloc, addr, turns, path, hub, disk, steps)
        }
        Ok(Some(Asked::Replay(None))) => replay(alloc, None, source, sink, &mut NoDisk, steps),
        Ok(Some(Asked::Replay(path))) => replay(alloc, path, source, sink, disk, steps),
        Ok(Some(Asked::Gen(n, seed))) => generate(alloc, n, seed, sink, steps),
        Ok(Some(Asked::Mirror(query))) => mirror_source(alloc, query, source, sink),
        Ok(None) => explain_usage(sink),
        Err(_) => Status::NoMemory,
    }
}

/// Serves one session from the source to the sink. The machine and the buffer are made first.
fn serve_source<S: Source, K: Sink, L: Ledgers>(
    alloc: Global,
    source: &mut S,
    sink: &mut K,
    steps: &mut Steps<L>,
) -> Status
    ensures { Serves opening result
        (outside (S.told source.old) (S.faults source.old) (K.told sink.old) (K.faults sink.old)
        (counts steps.old.listing steps.old.update steps.old.rows))
        (outside (S.told source.new) (S.faults source.new) (K.told sink.new) (K.faults sink.new)
        (counts steps.new.listing steps.new.update steps.new.rows)) }
{
    let Ok(mut machine) = Core::new(alloc) else {
        return Status::NoMemory;
    };
    let Ok(mut buffer) = vec![in alloc; 0; READ_BYTES] else {
        return Status::NoMemory;
    };
    run_session(&mut machine, source, sink, &mut buffer, steps)
}

/// Opens the log at the path, if there is one, lets the hub listen, and serves its sessions for so
/// many turns. The machine and the buffer are made first.
fn serve_hub<H: Hub, D: Disk, L: Ledgers>(
    alloc: Global,
    addr: &str,
    turns: u64,
    path: Option<&str>,
    hub: &mut H,
    disk: &mut D,
    steps: &mut Steps<L>,
) -> Status
    requires { (H.ids hub.old).open_ids ≡ [] }
    ensures { HubEnds (log_seen path.entry (disk_seen (D.told disk.old) (D.faults disk.old))
        (disk_seen (D.told disk.new) (D.faults disk.new)))
        result addr.now turns
        (hub_seen (hub_shown (H.past hub.old) (H.script hub.old) (H.ids hub.old)) (H.faults hub.old))
        (counts steps.old.listing steps.old.update steps.old.rows)
        (hub_seen (hub_shown (H.past hub.new) (H.script hub.new) (H.ids hub.new)) (H.faults hub.new))
        (counts steps.new.listing steps.new.update steps.new.rows) }
{
    let Ok(mut machine) = Core::new(alloc) else {
        return Status::NoMemory;
    };
    let Ok(mut buffer) = vec![in alloc; 0; READ_BYTES] else {
        return Status::NoMemory;
    };
    let mut log = match open_log(alloc, &mut machine, disk, path, steps) {
        Ok(log) => log,
        Err(status) => return status,
    };
    match hub.listen(addr) {
        Listened::Ready => {
            let served = serve_logged(
                &mut machine,
                hub,
                disk,
                &mut log,
                &mut buffer,
                turns,
                ROUND_TURNS,
                steps,
            );
            ended_status(served)
        }
        Listened::Failed => Status::HubFault,
    }
}

/// The status for the answer of the loop.
pub(crate) fn ended_status(served: Served) -> Status
    ensures { result ≡ served_status served }
{
    match served {
        Served::Stopped | Served::Over => Status::Done,
        Served::TurnsUsed => Status::TurnsUsed,
        Served::HubFault => Status::HubFault,
        Served::DiskFault => Status::DiskFault,
        Served::LogFull => Status::LogFull,
    }
}

/// Writes the answers of a query of a session that was sent the bytes of the source.
fn mirror_source<S: Source, K: Sink>(
    alloc: Global,
    query: &str,
    source: &mut S,
    sink: &mut K,
) -> Status
    requires { is_name query.now ≡ true }
    ensures { (counted : Counts) → MirrorsSource query.now result
        (outside (S.told source.old) (S.faults source.old) (K.told sink.old) (K.faults sink.old) counted)
        (outside (S.told source.new) (S.faults source.new) (K.told sink.new) (K.faults sink.new) counted) }
{
    mirror_status(run_mirror(alloc, Name::new(query.as_bytes()), source, sink))
}

/// The status for the end of `mirror`.
fn mirror_status(answer: Mirrored) -> Status
    ensures { result ≡ mirror_status answer }
{
    match answer {
        Mirrored::Done => Status::Done,
        Mirrored::Outside(number) => Status::Mirror(number),
        Mirrored::ReadFault => Status::ReadFault,
        Mirrored::WriteFault => Status::WriteFault,
        Mirrored::TooMany => Status::TurnsUsed,
        Mirrored::NoMemory => Status::NoMemory,
    }
}

/// Writes the usage line.
fn explain_usage<K: Sink>(sink: &mut K) -> Status
    ensures { (reading : Option SourceReading) (faults : ℕ) (counted : Counts) → WritesUsage result
        (outside reading faults (K.told sink.old) (K.faults sink.old) counted)
        (outside reading faults (K.told sink.new) (K.faults sink.new) counted) }
{
    match write_all(sink, USAGE) {
        Written::All => Status::Usage,
        Written::Failed(_) => Status::WriteFault,
    }
}
