ghost use Rattle.std.specs.Prelude.{◌≡◌, ◌↔◌, ℕ, ◌<◌, ◌+◌, [], ◌∷◌, length, Contains, IsTrue, Some, OnOk, OnErr};
ghost use Rattle.std.specs.Option.{option_copied};
ghost use Rattle.djq_io.specs.Sink.{Gains};
ghost use Rattle.djq_io.specs.Failing.{is_failing, after_call, failed_count};
ghost use Rattle.djq_io.specs.FailingSends.{after_send, failed_sends};
ghost use Rattle.djq_io.specs.Hub.{no_ids, Turns, Takes, FitsTurn, brought, taken_by, without};
ghost use Rattle.djq_io.specs.HubFaults.{CountsListen, CountsTurn, SameCounts, CountsInTurn, CountsSend};
ghost use Rattle.djq_io.specs.Script.{WhereTold, AnswersByScript, Sends};
ghost use Rattle.djq_io.specs.MemHub.{script_of, listen_of, send_of, call_number, with_failing, hub_faults};
ghost use Rattle.djq_io.specs.MemHub.{with_coming};

use crate::failing::{Failing, FailingSend, FailingSends};
use crate::hub::{Class, Coming, Hub, Incoming, Listened, Sent, Told, Turn};
use crate::piece::Piece;
use crate::recording::Recording;
use crate::script::ScriptQueue;
use crate::sessions::Sessions;
use std::alloc::{AllocError, Global};
use std::marker::Model;

/// A call of a hub that is to fail, by how many calls of its kind it is away: 1 is the next one.
#[derive(Clone, Copy, Debug, PartialEq, Eq)]
pub enum HubCall {
    /// A listen.
    Listen(u64),
    /// A turn.
    Turn(u64),
    /// A send to this session, which is answered `Gone`.
    Send(u64, u64),
}

/// A hub in memory, which follows a script and has a record of its past. It shows everything.
///
/// A turn that can't occur brings nothing: an id that isn't new, and bytes or the end of a session
/// that isn't open or has ended. It fails only at the calls that were named to it ([`MemHub::fail`]). A send
/// accepts the whole piece. If a growth of its past is refused, it shows nothing from then on.
#[derive(Debug, Drop)]
pub struct MemHub {
    alloc: Global,
    script: ScriptQueue,
    past: Recording<Told>,
    sessions: Sessions,
    failing_listens: Failing,
    failing_turns: Failing,
    failing_sends: FailingSends,
}

impl Model for MemHub {
    ghost use Rattle.std.specs.Prelude.{◌≤◌, length};
    ghost use Rattle.djq_io.specs.MemHub.{Recorded};

    ghost Value = { Recorded };

    ghost view = { λ h. record {
      script = h.script.script;
      past = h.past;
      ids = h.sessions.ids;
      failing_listens = h.failing_listens;
      failing_turns = h.failing_turns;
      failing_sends = h.failing_sends;
    } };

    ghost invariant = { λ h. length h.script.script.turns ≤ h.sessions.room };
}

impl MemHub {
    /// A hub that was asked nothing yet, with an empty script.
    pub fn new(alloc: Global) -> Self
        ensures script { result.script ≡ record { blocked = []; turns = [] } }
        ensures past { result.past ≡ Some [] }
        ensures ids { result.ids ≡ no_ids }
        ensures listens { result.failing_listens ≡ [] }
        ensures turns { result.failing_turns ≡ [] }
        ensures sends { result.failing_sends ≡ [] }
    {
        MemHub {
            alloc,
            script: ScriptQueue::new(alloc),
            past: Recording::new(alloc),
            sessions: Sessions::new(alloc),
            failing_listens: Failing::new(alloc),
            failing_turns: Failing::new(alloc),
            failing_sends: FailingSends::new(alloc),
        }
    }

    /// Appends a turn to the script.
    pub fn push(&mut self, coming: Coming) -> Result<(), AllocError>
        ensures ok { OnOk result (self.new ≡ with_coming self.old coming) }
        ensures err { OnErr result (self.new ≡ self.old) }
    {
        self.sessions.reserve(self.script.len_bound())?;
        self.script.push(coming)
    }

    /// Adds a call that is to fail.
    pub fn fail(&mut self, call: HubCall) -> Result<(), AllocError>
        requires { 0 < call_number call }
        ensures ok { OnOk result (self.new ≡ with_failing self.old call) }
        ensures err { OnErr result (self.new ≡ self.old) }
    {
        match call {
            HubCall::Listen(listen) => self.failing_listens.push(listen),
            HubCall::Turn(turn) => self.failing_turns.push(turn),
            HubCall::Send(id, send) => self.failing_sends.push(FailingSend { id, send }),
        }
    }

    /// All calls so far with their answers, or `None` after they are lost.
    pub fn past(&self) -> Option<&[Told]>
        ensures { option_copied result ≡ self.now.past }
    {
        self.past.items()
    }

    /// Removes the next turn of the script and returns it.
    fn follow(&mut self, buf: &mut [u8]) -> Turn
        requires { 0 < length buf.old }
        ensures script { AnswersByScript self.old.ids result buf.new self.old.script self.new.script }
        ensures ids { Turns result (length buf.new) self.old.ids self.new.ids }
        ensures others { self.new ≡ record self.old { script = self.new.script; ids = self.new.ids } }
        ensures works { result ≡ Turn.Failed → ⊥ }
    {
        match self.script.pop() {
            Some(Incoming::Opens(id)) if self.sessions.is_new(id) => {
                self.sessions.open(id);
                Turn::Opened(id, Class::Client)
            }
            Some(Incoming::Brings(id, mut piece))
                if !piece.is_empty() && self.sessions.is_running(id) => {
                let n = piece.copy_to(buf);
                if n < piece.len() {
                    piece.advance(n);
                    self.script.put_back(id, piece);
                }
                Turn::Bytes(id, n)
            }
            Some(Incoming::Ends(id)) if self.sessions.is_running(id) => {
                self.sessions.end(id);
                Turn::Ended(id)
            }
            Some(_) => Turn::Idle,
            None => Turn::Over,
        }
    }
}

impl Hub for MemHub {
    ghost script = { λ h. script_of h };

    ghost past = { λ h. h.past };

    ghost ids = { λ h. h.ids };

    ghost faults = { λ h. hub_faults h };

    ghost session_faults = { λ h. failed_sends h.failing_sends };

    fn listen(&mut self, addr: &str) -> Listened
        ensures exact { result ≡ listen_of self.old }
        ensures listens { self.new.failing_listens ≡ after_call self.old.failing_listens }
        ensures past { Gains self.old.past self.new.past (Told.Listening addr.now result ∷ []) }
        ensures others { self.new ≡ record self.old {
          past = self.new.past;
          failing_listens =
              self.new.failing_listens;
        } }
        ensures script { WhereTold (script_of self.old) (script_of self.new) (λ old new. new ≡ old) }
        ensures ids { self.new.ids ≡ self.old.ids }
        ensures faults { CountsListen result (hub_faults self.old) (hub_faults self.new) }
        ensures sessions { SameCounts self.old.ids.open_ids (failed_sends self.old.failing_sends)
            (failed_sends self.new.failing_sends) }
    {
        let listened = if self.failing_listens.count_down() {
            Listened::Failed
        } else {
            Listened::Ready
        };
        let addr = Piece::copy_of(self.alloc, addr.as_bytes());
        self.past
            .push_made(addr.map(|addr| Told::Listening(addr, listened)));
        listened
    }

    fn turn(&mut self, buf: &mut [u8]) -> Turn
        requires { 0 < length buf.old }
        ensures fails { (result ≡ Turn.Failed) ↔ IsTrue (is_failing self.old.failing_turns) }
        ensures turns { self.new.failing_turns ≡ after_call self.old.failing_turns }
        ensures listens { self.new.failing_listens ≡ self.old.failing_listens }
        ensures sends { self.new.failing_sends ≡ self.old.failing_sends }
        ensures past { Gains self.old.past self.new.past (Told.Turning result (brought result buf.new) ∷ []) }
        ensures follows { AnswersByScript self.old.ids result buf.new self.old.script self.new.script }
        ensures script { WhereTold (script_of self.old) (script_of self.new) (AnswersByScript self.old.ids result buf.new) }
        ensures ids { Turns result (length buf.new) self.old.ids self.new.ids }
        ensures faults { CountsTurn result (hub_faults self.old) (hub_faults self.new) }
        ensures sessions { CountsInTurn result self.old.ids.open_ids
            (failed_sends self.old.failing_sends) (failed_sends self.new.failing_sends) }
    {
        let turn = if self.failing_turns.count_down() {
            Turn::Failed
        } else {
            self.follow(buf)
        };
        let piece = Piece::copy_of(self.alloc, brought_by(turn, buf));
        self.past
            .push_made(piece.map(|piece| Told::Turning(turn, piece)));
        turn
    }

    fn send(&mut self, id: u64, piece: &[u8]) -> Sent
        requires is_open { Contains self.old.ids.open_ids id }
        requires some { 0 < length piece.now }
        ensures exact { result ≡ send_of self.old id piece.now }
        ensures sends { self.new.failing_sends ≡ after_send id self.old.failing_sends }
        ensures takes { Takes result piece.now }
        ensures past { Gains self.old.past self.new.past
            (Told.Sending id (length piece.now) result (taken_by result piece.now) ∷ []) }
        ensures script { WhereTold (script_of self.old) (script_of self.new) (Sends id (length piece.now) result) }
        ensures others { self.new ≡ record self.old { past = self.new.past; failing_sends = self.new.failing_sends } }
        ensures ids { self.new.ids ≡ self.old.ids }
        ensures faults { hub_faults self.new ≡ hub_faults self.old }
        ensures sessions { CountsSend result id self.old.ids.open_ids
            (failed_sends self.old.failing_sends) (failed_sends self.new.failing_sends) }
    {
        let sent = if self.failing_sends.count_down(id) {
            Sent::Gone
        } else if self.script.is_blocked(id) {
            Sent::Again
        } else {
            Sent::Took(piece.len())
        };
        let taken = Piece::copy_of(self.alloc, taken_of(sent, piece));
        self.past.push_made(taken.map(|taken| Told::Sending(id, piece.len(), sent, taken)));
        sent
    }

    fn at_hand(&self) -> bool {
        true
    }

    fn is_late(&self) -> bool {
        false
    }

    fn close(&mut self, id: u64)
        requires is_open { Contains self.old.ids.open_ids id }
        ensures past { Gains self.old.past self.new.past (Told.Closing id ∷ []) }
        ensures others { self.new ≡ record self.old { past = self.new.past; ids = self.new.ids } }
        ensures script { WhereTold (script_of self.old) (script_of self.new) (λ old new. new ≡ old) }
        ensures ids { self.new.ids ≡ without self.old.ids id }
        ensures faults { hub_faults self.new ≡ hub_faults self.old }
        ensures sessions { SameCounts self.new.ids.open_ids (failed_sends self.old.failing_sends)
            (failed_sends self.new.failing_sends) }
    {
        self.sessions.close(id);
        self.past.push(Told::Closing(id));
    }
}

/// The bytes that a turn brought into a buffer.
fn brought_by(turn: Turn, buf: &[u8]) -> &[u8]
    requires { FitsTurn turn (length buf.now) }
    ensures { result.now ≡ brought turn buf.now }
{
    match turn {
        Turn::Bytes(_, n) => &buf[..n],
        _ => &[],
    }
}

/// The bytes of a piece that a send accepted.
fn taken_of(sent: Sent, piece: &[u8]) -> &[u8]
    requires { Takes sent piece.now }
    ensures { result.now ≡ taken_by sent piece.now }
{
    match sent {
        Sent::Took(n) => &piece[..n],
        _ => &[],
    }
}
