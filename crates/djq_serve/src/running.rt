ghost use Rattle.std.specs.Prelude.{◌≡◌, ◌<◌, [], None, IfSome, true, false};
ghost use Rattle.std.specs.List.{AllByRecursion};
ghost use Rattle.djq_journal.specs.Format.{IsJournalLine};
ghost use Rattle.djq_machine.specs.Call.{counts, first_ready};
ghost use Rattle.djq_run_laws.specs.Holding.{HoldLines};
ghost use Rattle.djq_serve.specs.Told.{hub_shown};
ghost use Rattle.djq_serve.specs.Server.{next_ready};
ghost use Rattle.djq_serve.specs.Goes.{log_place};
ghost use Rattle.djq_serve.specs.Kept.{Agrees};
ghost use Rattle.djq_serve.specs.Logged.{DiskCounts};
ghost use Rattle.djq_serve.specs.Parts.{RunsLines, MayLose};
ghost use Rattle.djq_serve.specs.declared.limits.TheConstants.{COMMIT_LINES};

use crate::committing::commit;
use crate::limits::COMMIT_LINES;
use crate::served::Served;
use djq_counters::{Ledgers, Steps};
use djq_disk::Disk;
use djq_io::Hub;
use djq_log::Log;
use djq_machine::Machine;

/// Runs the lines that the sessions have, one of each in turn, and commits if as many were run as a commit may
/// have. It returns when none is left, with the last commit open, or when a commit can't be logged.
pub(crate) fn run_lines<M: Machine, H: Hub, D: Disk, L: Ledgers>(
    machine: &mut M,
    hub: &mut H,
    disk: &mut D,
    log: &mut Log,
    steps: &mut Steps<L>,
) -> Option<Served>
    requires agrees { Agrees (M.state machine.old) (H.ids hub.old) }
    requires hold { HoldLines (M.state machine.old) }
    requires is_open { IfSome log.old (λ _. D.is_open disk.old ≡ true) }
    ensures runs { RunsLines result (hub_shown (H.past hub.old) (H.script hub.old) (H.ids hub.old))
        (counts steps.old.listing steps.old.update steps.old.rows) (M.state machine.old)
        (log_place log.old (D.told disk.old))
        (hub_shown (H.past hub.new) (H.script hub.new) (H.ids hub.new))
        (counts steps.new.listing steps.new.update steps.new.rows) (M.state machine.new)
        (log_place log.new (D.told disk.new)) (M.commit machine.new) }
    ensures none_left { result ≡ None → first_ready (M.state machine.new) 0 ≡ None }
    ensures lines { result ≡ None → AllByRecursion IsJournalLine (M.commit machine.new) }
    ensures hold { HoldLines (M.state machine.new) }
    ensures agrees { Agrees (M.state machine.new) (H.ids hub.new) }
    ensures answer { MayLose result }
    ensures faults { H.faults hub.new ≡ H.faults hub.old }
    ensures disk { DiskCounts result (D.faults disk.old) (D.faults disk.new) }
    ensures is_open { D.is_open disk.new ≡ D.is_open disk.old }
    ensures nowhere { log.old ≡ None → (result ≡ None) × (log.new ≡ None) }
{
    machine.clear_commit();
    let mut from: u128 = 0;
    let mut count: u32 = 0;
    'lines: while let Some(id) = next_ready(machine, from) {
        machine.step(id, steps);
        from = u128::from(id) + 1;
        count += 1;
        if is_full(machine, hub, count) {
            count = 0;
            match commit(machine, hub, disk, log) {
                Some(served) => return Some(served),
                None => {}
            }
        }
    }
    None
}

/// The session of which the next line is run: the first of at least this id that has one, or else the first of all.
fn next_ready<M: Machine>(machine: &M, from: u128) -> Option<u64>
    ensures { result ≡ next_ready (M.state machine.now) from }
{
    match machine.ready(from) {
        Some(id) => Some(id),
        None => machine.ready(0),
    }
}

/// Whether a commit of so many lines ends here: it has as many as it may have, the hub is late, or the
/// machine has no room for what one line more logs.
fn is_full<M: Machine, H: Hub>(machine: &mut M, hub: &H, count: u32) -> bool
    ensures room { result ≡ false → (count < COMMIT_LINES) × (M.room machine.new ≡ true) }
    ensures state { M.state machine.new ≡ M.state machine.old }
    ensures commit { M.commit machine.new ≡ M.commit machine.old }
{
    COMMIT_LINES <= count || hub.is_late() || !machine.has_room()
}
