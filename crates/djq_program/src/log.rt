ghost use Rattle.std.specs.Prelude.{◌≡◌, ◌≤◌, [], None, IfSome, IfOk, MatchResult, length, true};
ghost use Rattle.djq_log.specs.Reading.{HasReadLines};
ghost use Rattle.djq_machine.specs.State.{opening};
ghost use Rattle.djq_machine.specs.Call.{counts};
ghost use Rattle.djq_program_laws.specs.Logged.{Unloaded, disk_seen, log_seen_at, log_seen};
ghost use Rattle.djq_commands.specs.Views.{loading_in};
ghost use Rattle.djq_program_laws.specs.Parts.{OpensLog, LoadsLines, StopsLoading, ReadsLog, EndsBatch, CantEnd};

use djq_core::Core;
use djq_counters::{Ledgers, Steps};
use djq_disk::{Disk, DiskOpen};
use djq_journal::OneLine;
use djq_log::{Kept, Log, LogEnd, LogFound, LogSource, NextLine, find_log};
use djq_log_file::{LOG_LINE_BYTES, Window};
use djq_machine::Loaded;
use djq_run::Status;
use std::alloc::Global;

/// The line that ends a batch, and drops it.
const ABANDON: &[u8] = b"abandon";

/// Opens the log at a path, and loads its lines into a machine in which nothing has happened, one
/// after another. If they end within a batch, as those of a file from elsewhere may, it is ended.
/// Without a path lines are stored nowhere. The buffer and the window through which the file is read are made
/// before the disk is asked for anything.
///
/// # Errors
///
/// The status for which the program ends: the disk failed, the log is bad or full, or out of memory.
pub(crate) fn open_log<D: Disk, L: Ledgers>(
    alloc: Global,
    machine: &mut Core,
    disk: &mut D,
    path: Option<&str>,
    steps: &mut Steps<L>,
) -> Result<Log, Status>
    requires fresh { machine.old.state ≡ opening }
    requires closed { machine.old.batch ≡ None }
    ensures is_open { IfOk result (λ log. IfSome log (λ _. D.is_open disk.new ≡ true)) }
    ensures opens { OpensLog (log_seen path.entry (disk_seen (D.told disk.old) (D.faults disk.old))
        (disk_seen (D.told disk.new) (D.faults disk.new)))
        result machine.new.state (counts steps.old.listing steps.old.update steps.old.rows)
        (counts steps.new.listing steps.new.update steps.new.rows) }
{
    let Some(path) = path else {
        return Ok(Log::nowhere());
    };
    let Ok(mut line) = vec![in alloc; 0; LOG_LINE_BYTES] else {
        return Err(Status::NoMemory);
    };
    let Ok(window) = Window::new(alloc) else {
        return Err(Status::NoMemory);
    };
    match read_log(machine, disk, path, window, &mut line, steps) {
        Ok(end) => end_batch(machine, disk, end, steps),
        Err(status) => Err(status),
    }
}

/// Opens the file at a path, finds or makes the log in it, and loads its lines.
fn read_log<D: Disk, L: Ledgers>(
    machine: &mut Core,
    disk: &mut D,
    path: &str,
    window: Window,
    line: &mut [u8],
    steps: &mut Steps<L>,
) -> Result<LogEnd, Status>
    requires fresh { machine.old.state ≡ opening }
    requires closed { machine.old.batch ≡ None }
    requires empty { window.held ≡ [] }
    requires room { 65535 ≤ length line.old }
    ensures is_open { IfOk result (λ _. D.is_open disk.new ≡ true) }
    ensures reads { MatchResult result
        (λ end. ReadsLog (log_seen_at path.now (disk_seen (D.told disk.old) (D.faults disk.old))
        (disk_seen (D.told disk.new) (D.faults disk.new)))
        end (loading_in machine.new) machine.new.state steps.old.listing steps.new.listing)
        (λ status. Unloaded (log_seen_at path.now (disk_seen (D.told disk.old) (D.faults disk.old))
        (disk_seen (D.told disk.new) (D.faults disk.new)))
        status (counts steps.old.listing steps.old.update steps.old.rows)
        (counts steps.new.listing steps.new.update steps.new.rows)) }
{
    match disk.open(path) {
        DiskOpen::Ready => {}
        DiskOpen::Failed => return Err(Status::DiskFault),
    }
    match find_log(disk, window) {
        LogFound::Made(end) => Ok(end),
        LogFound::Ready(source) => load_lines(machine, disk, source, line, steps),
        LogFound::Unknown => Err(Status::BadLog(0)),
        LogFound::Failed => Err(Status::DiskFault),
    }
}

/// Ends the batch that lines of a log left open, if they did: the line `abandon` is loaded, and appended
/// to them.
fn end_batch<D: Disk, L: Ledgers>(
    machine: &mut Core,
    disk: &mut D,
    end: LogEnd,
    steps: &mut Steps<L>,
) -> Result<Log, Status>
    requires none { machine.old.state.sessions ≡ [] }
    requires is_open { D.is_open disk.old ≡ true }
    ensures is_open { D.is_open disk.new ≡ true }
    ensures ends { MatchResult result
        (λ log. EndsBatch end log (loading_in machine.old) (loading_in machine.new)
        (disk_seen (D.told disk.old) (D.faults disk.old)) (disk_seen (D.told disk.new) (D.faults disk.new)))
        (λ status. CantEnd status end (loading_in machine.old)
        (disk_seen (D.told disk.old) (D.faults disk.old)) (disk_seen (D.told disk.new) (D.faults disk.new))) }
    ensures rest { machine.new.state ≡ record machine.old.state { store = machine.new.state.store } }
    ensures listing { steps.new.listing ≡ steps.old.listing }
{
    let mut log = Log::of(end);
    if !machine.load_open() {
        return Ok(log);
    }
    // In a batch it is never refused, and allocates nothing.
    machine.load(ABANDON, steps);
    match log.keep(disk, &OneLine { line: ABANDON }) {
        Kept::All => Ok(log),
        Kept::Failed => Err(Status::DiskFault),
        Kept::Full => Err(Status::LogFull),
    }
}

/// Loads the lines of a log one after another, each read into the buffer, until the log ends.
fn load_lines<D: Disk, L: Ledgers>(
    machine: &mut Core,
    disk: &mut D,
    mut source: LogSource,
    line: &mut [u8],
    steps: &mut Steps<L>,
) -> Result<LogEnd, Status>
    requires fresh { machine.old.state ≡ opening }
    requires closed { machine.old.batch ≡ None }
    requires room { 65535 ≤ length line.old }
    requires first { IfSome (D.told disk.old) (λ h. HasReadLines [] source h.file) }
    requires is_open { D.is_open disk.old ≡ true }
    ensures is_open { D.is_open disk.new ≡ true }
    ensures loads { MatchResult result
        (λ end. LoadsLines end (loading_in machine.new) machine.new.state
        (disk_seen (D.told disk.old) (D.faults disk.old))
        (disk_seen (D.told disk.new) (D.faults disk.new))
        steps.old.listing steps.new.listing)
        (λ status. StopsLoading status (disk_seen (D.told disk.old) (D.faults disk.old))
        (disk_seen (D.told disk.new) (D.faults disk.new))
        steps.old.listing steps.new.listing) }
{
    'lines: loop {
        match source.next_line(disk, line) {
            NextLine::Got(next, n, at) => match machine.load(&line[..n], steps) {
                Loaded::Ran => source = next,
                Loaded::Refused => return Err(Status::BadLog(at)),
                Loaded::NoMem => return Err(Status::NoMemory),
            },
            NextLine::End(end) => return Ok(end),
            NextLine::Bad(at) => return Err(Status::BadLog(at)),
            NextLine::Failed => return Err(Status::DiskFault),
        }
    }
}
