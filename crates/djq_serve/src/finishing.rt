ghost use Rattle.std.specs.Prelude.{◌≡◌, [], None, IfSome, true};
ghost use Rattle.std.specs.List.{AllByRecursion};
ghost use Rattle.djq_journal.specs.Format.{IsJournalLine};
ghost use Rattle.djq_machine.specs.Call.{counts, first_ready};
ghost use Rattle.djq_run_laws.specs.Holding.{HoldLines};
ghost use Rattle.djq_serve.specs.Told.{hub_shown};
ghost use Rattle.djq_serve.specs.Server.{ends_input};
ghost use Rattle.djq_serve.specs.Goes.{log_place};
ghost use Rattle.djq_serve.specs.Kept.{Agrees};
ghost use Rattle.djq_serve.specs.Logged.{DiskCounts, IsPlainAnswer};
ghost use Rattle.djq_serve.specs.Parts.{rest_to_last, EndsInputOf, FinishesRound, EndsRoundBy, MayFinish, MayEnd};

use crate::committing::commit;
use crate::rest::Rest;
use crate::running::run_lines;
use crate::served::Served;
use djq_counters::{Ledgers, Steps};
use djq_disk::Disk;
use djq_io::Hub;
use djq_log::Log;
use djq_machine::Machine;

/// Runs and commits the lines of a round after its turns, and finishes it. It returns how serving ends, if
/// it does. No line is run after the hub failed.
pub(crate) fn end_round<M: Machine, H: Hub, D: Disk, L: Ledgers>(
    machine: &mut M,
    hub: &mut H,
    disk: &mut D,
    log: &mut Log,
    rest: Rest,
    steps: &mut Steps<L>,
) -> Option<Served>
    requires agrees { Agrees (M.state machine.old) (H.ids hub.old) }
    requires hold { HoldLines (M.state machine.old) }
    requires is_open { IfSome log.old (λ _. D.is_open disk.old ≡ true) }
    ensures ends { EndsRoundBy result rest (hub_shown (H.past hub.old) (H.script hub.old) (H.ids hub.old))
        (counts steps.old.listing steps.old.update steps.old.rows) (M.state machine.old)
        (log_place log.old (D.told disk.old))
        (hub_shown (H.past hub.new) (H.script hub.new) (H.ids hub.new))
        (counts steps.new.listing steps.new.update steps.new.rows) (M.state machine.new)
        (log_place log.new (D.told disk.new)) }
    ensures agrees { Agrees (M.state machine.new) (H.ids hub.new) }
    ensures hold { HoldLines (M.state machine.new) }
    ensures answer { MayEnd rest result }
    ensures faults { H.faults hub.new ≡ H.faults hub.old }
    ensures disk { DiskCounts result (D.faults disk.old) (D.faults disk.new) }
    ensures is_open { D.is_open disk.new ≡ D.is_open disk.old }
    ensures nowhere { log.old ≡ None → IsPlainAnswer result × (log.new ≡ None) }
{
    if rest == Rest::Failed {
        return Some(Served::HubFault);
    }
    match run_lines(machine, hub, disk, log, steps) {
        Some(served) => Some(served),
        None => finish_round(machine, hub, disk, log, rest),
    }
}

/// Finishes a round in which no line is left: the input of a session ends if that ended the round, and the last
/// commit is made. It returns how serving ends, if it does.
fn finish_round<M: Machine, H: Hub, D: Disk>(
    machine: &mut M,
    hub: &mut H,
    disk: &mut D,
    log: &mut Log,
    rest: Rest,
) -> Option<Served>
    requires none_left { first_ready (M.state machine.old) 0 ≡ None }
    requires agrees { Agrees (M.state machine.old) (H.ids hub.old) }
    requires hold { HoldLines (M.state machine.old) }
    requires lines { AllByRecursion IsJournalLine (M.commit machine.old) }
    requires is_open { IfSome log.old (λ _. D.is_open disk.old ≡ true) }
    ensures finishes { FinishesRound result rest (hub_shown (H.past hub.old) (H.script hub.old) (H.ids hub.old))
        (M.state machine.old) (M.commit machine.old) (log_place log.old (D.told disk.old))
        (hub_shown (H.past hub.new) (H.script hub.new) (H.ids hub.new)) (M.state machine.new)
        (log_place log.new (D.told disk.new)) }
    ensures agrees { Agrees (M.state machine.new) (H.ids hub.new) }
    ensures hold { HoldLines (M.state machine.new) }
    ensures answer { MayFinish result }
    ensures faults { H.faults hub.new ≡ H.faults hub.old }
    ensures disk { DiskCounts result (D.faults disk.old) (D.faults disk.new) }
    ensures is_open { D.is_open disk.new ≡ D.is_open disk.old }
    ensures nowhere { log.old ≡ None → IsPlainAnswer result × (log.new ≡ None) }
{
    end_input(machine, rest);
    match commit(machine, hub, disk, log) {
        Some(served) => Some(served),
        None if machine.stopped() => Some(Served::Stopped),
        None if rest == Rest::Over => Some(Served::Over),
        None => None,
    }
}

/// Ends the input of a session if that ended the round. A session that is closed has no input, and none ends after
/// `stop`.
fn end_input<M: Machine>(machine: &mut M, rest: Rest)
    requires { first_ready (M.state machine.old) 0 ≡ None }
    ensures ends { EndsInputOf (rest_to_last rest) (M.state machine.old) (M.state machine.new) }
    ensures commit { M.commit machine.new ≡ M.commit machine.old }
{
    if let Rest::Ends(id) = rest {
        if has_input(machine, id) {
            machine.end_session(id);
        }
    }
}

/// Whether the input of a session can be ended: it is open, and no session sent `stop`.
fn has_input<M: Machine>(machine: &M, id: u64) -> bool
    ensures { result ≡ ends_input (M.state machine.now) id }
{
    !machine.stopped() && machine.ids().contains(&id)
}
