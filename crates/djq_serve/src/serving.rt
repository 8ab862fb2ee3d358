ghost use Rattle.std.specs.Prelude.{◌≡◌, ◌<◌, ℕ, [], None, Some, IfSome, true, false, length};
ghost use Rattle.djq_io.specs.Faults.{Counted};
ghost use Rattle.djq_machine.specs.Call.{counts, state_ids};
ghost use Rattle.djq_io.specs.declared.limits.TheConstants.{READ_BYTES};
ghost use Rattle.djq_run_laws.specs.Holding.{HoldLines};
ghost use Rattle.djq_serve.specs.Told.{hub_shown};
ghost use Rattle.djq_serve.specs.Server.{closing, server};
ghost use Rattle.djq_serve.specs.Goes.{GoesQuietly, log_place};
ghost use Rattle.djq_serve.specs.Kept.{Agrees};
ghost use Rattle.djq_serve.specs.Ends.{ServeEnds, FaultsCount};
ghost use Rattle.djq_serve.specs.Logged.{ServeLogs, DiskCounts, IsNotOfDisk};
ghost use Rattle.djq_serve.specs.Parts.{Took};

use crate::finishing::end_round;
use crate::flushing::close;
use crate::gathering::gather;
use crate::served::Served;
use djq_counters::{Ledgers, Steps};
use djq_disk::{Disk, NoDisk};
use djq_io::Hub;
use djq_log::Log;
use djq_machine::Machine;

/// Serves the sessions of a hub in rounds, until a session sends `stop`, nothing more will arrive, this many
/// turns were read, or the hub fails. Then each session that is open is closed.
///
/// `turns` is how many turns are read at most, and `most` how many in a round. The hub has the sessions of the
/// machine and no others, as when neither has opened one. The buffer has as many bytes as are read at a time.
/// Nothing is allocated but by the machine and the hub.
pub fn serve<M: Machine, H: Hub, L: Ledgers>(
    machine: &mut M,
    hub: &mut H,
    buffer: &mut [u8],
    turns: u64,
    most: u64,
    steps: &mut Steps<L>,
) -> Served
    requires room { length buffer.old ≡ READ_BYTES }
    requires some { 0 < most }
    requires none { (M.state machine.old).sessions ≡ [] }
    requires alone { (H.ids hub.old).open_ids ≡ [] }
    requires going { (M.state machine.old).stopped ≡ false }
    ensures ends { ServeEnds result turns most
        (hub_shown (H.past hub.old) (H.script hub.old) (H.ids hub.old))
        (counts steps.old.listing steps.old.update steps.old.rows) (M.state machine.old)
        (hub_shown (H.past hub.new) (H.script hub.new) (H.ids hub.new))
        (counts steps.new.listing steps.new.update steps.new.rows) (M.state machine.new) }
    ensures faults { FaultsCount result (H.faults hub.old) (H.faults hub.new) }
    ensures plain { IsNotOfDisk result }
{
    let mut log = Log::nowhere();
    serve_logged(
        machine,
        hub,
        &mut NoDisk,
        &mut log,
        buffer,
        turns,
        most,
        steps,
    )
}

/// Serves the sessions of a hub as [`serve`] does, and appends what each commit logs to the log as one group,
/// before anything of the commit is sent. Serving ends too if that can't be appended; nothing is sent then any
/// more.
///
/// A log that is in a file ends on this disk, which is open.
pub fn serve_logged<M: Machine, H: Hub, D: Disk, L: Ledgers>(
    machine: &mut M,
    hub: &mut H,
    disk: &mut D,
    log: &mut Log,
    buffer: &mut [u8],
    turns: u64,
    most: u64,
    steps: &mut Steps<L>,
) -> Served
    requires room { length buffer.old ≡ READ_BYTES }
    requires some { 0 < most }
    requires none { (M.state machine.old).sessions ≡ [] }
    requires alone { (H.ids hub.old).open_ids ≡ [] }
    requires going { (M.state machine.old).stopped ≡ false }
    requires is_open { IfSome log.old (λ _. D.is_open disk.old ≡ true) }
    ensures logs { ServeLogs result turns most
        (hub_shown (H.past hub.old) (H.script hub.old) (H.ids hub.old))
        (counts steps.old.listing steps.old.update steps.old.rows) (M.state machine.old)
        (hub_shown (H.past hub.new) (H.script hub.new) (H.ids hub.new))
        (counts steps.new.listing steps.new.update steps.new.rows) (M.state machine.new)
        log.old log.new (D.told disk.old) (D.told disk.new) }
    ensures faults { FaultsCount result (H.faults hub.old) (H.faults hub.new) }
    ensures disk { DiskCounts (Some result) (D.faults disk.old) (D.faults disk.new) }
    ensures is_open { D.is_open disk.new ≡ D.is_open disk.old }
    ensures nowhere { log.old ≡ None → IsNotOfDisk result }
{
    let served = take_rounds(machine, hub, disk, log, buffer, turns, most, steps);
    close_all(machine, hub);
    served
}

/// Serves rounds, until serving ends.
fn take_rounds<M: Machine, H: Hub, D: Disk, L: Ledgers>(
    machine: &mut M,
    hub: &mut H,
    disk: &mut D,
    log: &mut Log,
    buffer: &mut [u8],
    turns: u64,
    most: u64,
    steps: &mut Steps<L>,
) -> Served
    requires room { length buffer.old ≡ READ_BYTES }
    requires some { 0 < most }
    requires agrees { Agrees (M.state machine.old) (H.ids hub.old) }
    requires hold { HoldLines (M.state machine.old) }
    requires is_open { IfSome log.old (λ _. D.is_open disk.old ≡ true) }
    ensures took { Took result turns most
        (hub_shown (H.past hub.old) (H.script hub.old) (H.ids hub.old))
        (counts steps.old.listing steps.old.update steps.old.rows) (M.state machine.old)
        (log_place log.old (D.told disk.old))
        (hub_shown (H.past hub.new) (H.script hub.new) (H.ids hub.new))
        (counts steps.new.listing steps.new.update steps.new.rows) (M.state machine.new)
        (log_place log.new (D.told disk.new)) }
    ensures agrees { Agrees (M.state machine.new) (H.ids hub.new) }
    ensures faults { FaultsCount result (H.faults hub.old) (H.faults hub.new) }
    ensures disk { DiskCounts (Some result) (D.faults disk.old) (D.faults disk.new) }
    ensures is_open { D.is_open disk.new ≡ D.is_open disk.old }
    ensures nowhere { log.old ≡ None → IsNotOfDisk result }
{
    let mut left = turns;
    'rounds: while 0 < left {
        let gathered = gather(machine, hub, buffer, left.min(most));
        left -= gathered.taken;
        match end_round(machine, hub, disk, log, gathered.rest, steps) {
            Some(served) => return served,
            None => {}
        }
    }
    Served::TurnsUsed
}

/// Closes every open session.
fn close_all<M: Machine, H: Hub>(machine: &mut M, hub: &mut H)
    requires agrees { Agrees (M.state machine.old) (H.ids hub.old) }
    ensures goes { (most : ℕ) (answer : Served) → GoesQuietly most (hub_shown (H.past hub.old) (H.script hub.old)
        (H.ids hub.old))
        (server (M.state machine.old) (closing answer))
        (hub_shown (H.past hub.new) (H.script hub.new) (H.ids hub.new))
        (server (M.state machine.new) (closing answer)) }
    ensures agrees { Agrees (M.state machine.new) (H.ids hub.new) }
    ensures none { state_ids (M.state machine.new) ≡ [] }
    ensures faults { H.faults hub.new ≡ H.faults hub.old }
{
    'closes: while let Some(id) = machine.ids().first().copied() {
        close(machine, hub, id);
    }
}
