ghost use Rattle.std.specs.Prelude.{◌≡◌, ◌≤◌, [], None, IfSome, true};
ghost use Rattle.std.specs.List.{AllByRecursion};
ghost use Rattle.djq_journal.specs.Format.{IsJournalLine};
ghost use Rattle.djq_serve.specs.Told.{hub_shown};
ghost use Rattle.djq_serve.specs.Goes.{log_place};
ghost use Rattle.djq_serve.specs.Kept.{Agrees, Spares};
ghost use Rattle.djq_serve.specs.Logged.{DiskCounts};
ghost use Rattle.djq_serve.specs.Parts.{MakesCommit, MayLose};

use crate::commit_lines::CommitLines;
use crate::flushing::flush;
use crate::served::Served;
use djq_disk::Disk;
use djq_io::Hub;
use djq_log::{Kept, Log};
use djq_machine::Machine;

/// Appends the lines of the commit to the log as one group, flushes, and empties the commit. Serving ends, without a
/// flush, if they can't be appended.
pub(crate) fn commit<M: Machine, H: Hub, D: Disk>(
    machine: &mut M,
    hub: &mut H,
    disk: &mut D,
    log: &mut Log,
) -> Option<Served>
    requires agrees { Agrees (M.state machine.old) (H.ids hub.old) }
    requires lines { AllByRecursion IsJournalLine (M.commit machine.old) }
    requires is_open { IfSome log.old (λ _. D.is_open disk.old ≡ true) }
    ensures makes { MakesCommit result (hub_shown (H.past hub.old) (H.script hub.old) (H.ids hub.old))
        (M.state machine.old) (M.commit machine.old)
        (hub_shown (H.past hub.new) (H.script hub.new) (H.ids hub.new)) (M.state machine.new)
        (log_place log.old (D.told disk.old)) (log_place log.new (D.told disk.new)) }
    ensures empty { result ≡ None → M.commit machine.new ≡ [] }
    ensures agrees { Agrees (M.state machine.new) (H.ids hub.new) }
    ensures spares { Spares (M.state machine.old) (M.state machine.new) }
    ensures answer { MayLose result }
    ensures faults { H.faults hub.new ≡ H.faults hub.old }
    ensures disk { DiskCounts result (D.faults disk.old) (D.faults disk.new) }
    ensures is_open { D.is_open disk.new ≡ D.is_open disk.old }
    ensures nowhere { log.old ≡ None → (result ≡ None) × (log.new ≡ None) }
{
    match log.keep(disk, &CommitLines { machine }) {
        Kept::All => {
            flush(machine, hub);
            machine.clear_commit();
            None
        }
        Kept::Failed => Some(Served::DiskFault),
        Kept::Full => Some(Served::LogFull),
    }
}
