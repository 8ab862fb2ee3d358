ghost use Rattle.std.specs.Prelude.{◌≡◌, ◌<◌, ◌≤◌, [], ◌∷◌, length, Contains};
ghost use Rattle.djq_io.specs.declared.hub.Told.{Told};
ghost use Rattle.djq_io.specs.declared.limits.TheConstants.{READ_BYTES};
ghost use Rattle.djq_machine.specs.Call.{IsOpen};
ghost use Rattle.djq_run_laws.specs.Holding.{HoldLines};
ghost use Rattle.djq_serve.specs.Told.{hub_shown};
ghost use Rattle.djq_serve.specs.Kept.{Agrees, IsNewSession};
ghost use Rattle.djq_serve.specs.Parts.{Admits, OffersAndCloses, TakesOne, Gathers, RestCounts};

use crate::rest::Rest;
use djq_io::{Hub, Turn};
use djq_machine::{Machine, OpenRefusal};

/// The turns of a round: how many there were, and what is left to do after its lines.
#[derive(Drop)]
pub(crate) struct Gathered {
    pub(crate) taken: u64,
    pub(crate) rest: Rest,
}

/// Reads the turns of a round: one, and then further ones while one is at hand, up to the limit.
/// The end of a session's input, and of the hub, end it.
pub(crate) fn gather<M: Machine, H: Hub>(
    machine: &mut M,
    hub: &mut H,
    buffer: &mut [u8],
    limit: u64,
) -> Gathered
    requires room { length buffer.old ≡ READ_BYTES }
    requires some { 0 < limit }
    requires agrees { Agrees (M.state machine.old) (H.ids hub.old) }
    requires hold { HoldLines (M.state machine.old) }
    ensures room { length buffer.new ≡ READ_BYTES }
    ensures gathers { Gathers limit result.taken result.rest
        (hub_shown (H.past hub.old) (H.script hub.old) (H.ids hub.old)) (M.state machine.old)
        (hub_shown (H.past hub.new) (H.script hub.new) (H.ids hub.new)) (M.state machine.new) }
    ensures agrees { Agrees (M.state machine.new) (H.ids hub.new) }
    ensures hold { HoldLines (M.state machine.new) }
    ensures faults { RestCounts result.rest (H.faults hub.old) (H.faults hub.new) }
{
    let mut rest = take_turn(machine, hub, buffer);
    let mut taken = 1;
    'turns: while taken < limit && rest == Rest::Nothing && hub.at_hand() {
        rest = take_turn(machine, hub, buffer);
        taken += 1;
    }
    Gathered { taken, rest }
}

/// Reads a turn of the hub, and feeds the machine what it brings.
fn take_turn<M: Machine, H: Hub>(machine: &mut M, hub: &mut H, buffer: &mut [u8]) -> Rest
    requires room { length buffer.old ≡ READ_BYTES }
    requires agrees { Agrees (M.state machine.old) (H.ids hub.old) }
    requires hold { HoldLines (M.state machine.old) }
    ensures room { length buffer.new ≡ READ_BYTES }
    ensures takes { TakesOne result
        (hub_shown (H.past hub.old) (H.script hub.old) (H.ids hub.old)) (M.state machine.old)
        (hub_shown (H.past hub.new) (H.script hub.new) (H.ids hub.new)) (M.state machine.new) }
    ensures agrees { Agrees (M.state machine.new) (H.ids hub.new) }
    ensures hold { HoldLines (M.state machine.new) }
    ensures faults { RestCounts result (H.faults hub.old) (H.faults hub.new) }
{
    match hub.turn(buffer) {
        Turn::Opened(id, _class) => {
            open(machine, hub, id);
            Rest::Nothing
        }
        Turn::Bytes(id, count) => {
            machine.feed(id, &buffer[..count]);
            Rest::Nothing
        }
        Turn::Ended(id) => Rest::Ends(id),
        Turn::Idle => Rest::Nothing,
        Turn::Over => Rest::Over,
        Turn::Failed => Rest::Failed,
    }
}

/// Lets a session in that opened at the hub, or refuses it.
fn open<M: Machine, H: Hub>(machine: &mut M, hub: &mut H, id: u64)
    requires { IsNewSession (M.state machine.old) (H.ids hub.old) id }
    ensures admits { Admits (M.state machine.old)
        (hub_shown (H.past hub.old) (H.script hub.old) (H.ids hub.old)) id
        (M.state machine.new) (hub_shown (H.past hub.new) (H.script hub.new) (H.ids hub.new)) }
    ensures agrees { Agrees (M.state machine.new) (H.ids hub.new) }
    ensures faults { H.faults hub.new ≡ H.faults hub.old }
{
    match machine.open_session(id) {
        Ok(()) => {}
        Err(OpenRefusal::Full) => refuse(hub, id, b"end full\n"),
        Err(OpenRefusal::NoMem) => refuse(hub, id, b"end memory\n"),
    }
}

/// Sends one line to a session that isn't let in, once, and closes it.
fn refuse<H: Hub>(hub: &mut H, id: u64, line: &[u8])
    requires open { Contains (H.ids hub.old).open_ids id }
    requires some { 0 < length line.now }
    ensures refuses { OffersAndCloses (hub_shown (H.past hub.old) (H.script hub.old) (H.ids hub.old)) id
        line.now
        (hub_shown (H.past hub.new) (H.script hub.new) (H.ids hub.new)) }
    ensures faults { H.faults hub.new ≡ H.faults hub.old }
{
    hub.send(id, line);
    hub.close(id);
}
