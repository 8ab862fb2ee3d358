ghost use Rattle.std.specs.Prelude.{◌≡◌, ℕ, ◌<◌, ◌≤◌, [], ◌∷◌, Some};
ghost use Rattle.djq_io.specs.declared.hub.Told.{Told};
ghost use Rattle.djq_machine.specs.Step.{closed};
ghost use Rattle.djq_machine.specs.Run.{pending_of};
ghost use Rattle.djq_machine.specs.Call.{IsOpen, Makes, first_due};
ghost use Rattle.djq_serve.specs.Told.{hub_shown, HubTells};
ghost use Rattle.djq_serve.specs.Server.{Next, flushing, server};
ghost use Rattle.djq_serve.specs.Goes.{GoesQuietly};
ghost use Rattle.djq_serve.specs.Kept.{Agrees, Spares, flush_ahead};
ghost use Rattle.djq_serve.specs.Parts.{Flushes};

use djq_io::{Hub, Sent};
use djq_machine::Machine;

/// Closes an open session, at the hub and in the machine.
pub(crate) fn close<M: Machine, H: Hub>(machine: &mut M, hub: &mut H, id: u64)
    requires open { IsOpen (M.state machine.old) id }
    requires agrees { Agrees (M.state machine.old) (H.ids hub.old) }
    ensures makes { Makes (M.state machine.old) (closed id (pending_of (M.state machine.old) id))
        (M.state machine.new) }
    ensures told { HubTells (hub_shown (H.past hub.old) (H.script hub.old) (H.ids hub.old))
        (hub_shown (H.past hub.new) (H.script hub.new) (H.ids hub.new)) (Told.Closing id ∷ []) }
    ensures agrees { Agrees (M.state machine.new) (H.ids hub.new) }
    ensures faults { H.faults hub.new ≡ H.faults hub.old }
{
    hub.close(id);
    machine.close_session(id);
}

/// Sends once what is pending for an open session to which something is due, and returns the id at which
/// the flush continues: the same id if bytes were sent. The session is closed if the hub answers `Gone`, and if
/// nothing is pending, since then it has ended.
fn visit<M: Machine, H: Hub>(machine: &mut M, hub: &mut H, id: u64) -> u128
    requires open { IsOpen (M.state machine.old) id }
    requires agrees { Agrees (M.state machine.old) (H.ids hub.old) }
    ensures goes { (most from : ℕ) (next : Next) → first_due (M.state machine.old) from ≡ Some id
        → GoesQuietly most (hub_shown (H.past hub.old) (H.script hub.old) (H.ids hub.old))
        (server (M.state machine.old) (flushing from next))
        (hub_shown (H.past hub.new) (H.script hub.new) (H.ids hub.new))
        (server (M.state machine.new) (flushing result next)) }
    ensures nearer { (from : ℕ) → from ≤ id
        → flush_ahead (M.state machine.new) result < flush_ahead (M.state machine.old) from }
    ensures agrees { Agrees (M.state machine.new) (H.ids hub.new) }
    ensures spares { Spares (M.state machine.old) (M.state machine.new) }
    ensures faults { H.faults hub.new ≡ H.faults hub.old }
{
    let next = u128::from(id) + 1;
    let pending = machine.pending(id);
    if pending.is_empty() {
        close(machine, hub, id);
        return next;
    }
    match hub.send(id, pending) {
        Sent::Took(count) => {
            machine.took(id, count);
            u128::from(id)
        }
        Sent::Again => next,
        Sent::Gone => {
            close(machine, hub, id);
            next
        }
    }
}

/// Visits the open sessions to which something is due, by rising id.
pub(crate) fn flush<M: Machine, H: Hub>(machine: &mut M, hub: &mut H)
    requires agrees { Agrees (M.state machine.old) (H.ids hub.old) }
    ensures flushes { Flushes (hub_shown (H.past hub.old) (H.script hub.old) (H.ids hub.old))
        (M.state machine.old) (hub_shown (H.past hub.new) (H.script hub.new) (H.ids hub.new))
        (M.state machine.new) }
    ensures agrees { Agrees (M.state machine.new) (H.ids hub.new) }
    ensures spares { Spares (M.state machine.old) (M.state machine.new) }
    ensures faults { H.faults hub.new ≡ H.faults hub.old }
{
    let mut from: u128 = 0;
    'visits: while let Some(id) = machine.due(from) {
        from = visit(machine, hub, id);
    }
}
