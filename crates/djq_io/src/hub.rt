use crate::id_list::IdList;
use crate::piece::Piece;

/// The answer to a request to listen.
#[derive(Clone, Copy, Debug, PartialEq, Eq)]
pub enum Listened {
    Ready,
    Failed,
}

/// At which address a session opens, by which it is decided what it may do.
#[derive(Clone, Copy, Debug, PartialEq, Eq)]
pub enum Class {
    /// At the address for all: it may read and change.
    Client,
}

/// What a turn brings.
#[derive(Clone, Copy, Debug, PartialEq, Eq)]
pub enum Turn {
    /// A new session of this class, with an id above all before it.
    Opened(u64, Class),
    /// So many bytes of a session are at the start of the buffer, at least 1.
    Bytes(u64, usize),
    /// A session's input ended.
    Ended(u64),
    /// No event.
    Idle,
    /// There will be no further event.
    Over,
    /// The hub failed.
    Failed,
}

/// What a turn of a script brings.
#[derive(Debug, Drop)]
pub enum Incoming {
    /// A new session.
    Opens(u64),
    /// Bytes of a session.
    Brings(u64, Piece),
    /// The end of a session's input.
    Ends(u64),
    /// Nothing.
    Nothing,
}

/// A turn of a script, and the ids whose sends answer `Again` from then on to the next turn.
#[derive(Debug, Drop)]
pub struct Coming {
    pub turn: Incoming,
    pub blocked: IdList,
}

/// The answer to a send.
#[derive(Clone, Copy, Debug, PartialEq, Eq)]
pub enum Sent {
    /// So many bytes from the start of the piece were accepted, at least 1.
    Took(usize),
    /// No bytes can be accepted now.
    Again,
    /// The session accepts nothing any more.
    Gone,
}

/// A call of a hub and its answer, as its past has them.
#[derive(Debug, Drop)]
pub enum Told {
    /// It was asked to listen at an address.
    Listening(Piece, Listened),
    /// A turn, with the bytes that it brought.
    Turning(Turn, Piece),
    /// A send to a session: how many bytes were offered, the answer, and the bytes that it accepted.
    Sending(u64, usize, Sent, Piece),
    /// A session was closed.
    Closing(u64),
}

/// Sessions that open, bring bytes, accept bytes and end.
pub trait Hub {
    ghost use Rattle.std.specs.Prelude.{◌≡◌, ℕ, ◌<◌, List, [], ◌∷◌, length, Contains, Option};
    ghost use Rattle.djq_io.specs.Sink.{Gains};
    ghost use Rattle.djq_io.specs.Hub.{Ids, Turns, Takes, brought, taken_by, without};
    ghost use Rattle.djq_io.specs.HubFaults.{CountsListen, CountsTurn, SameCounts, CountsInTurn, CountsSend};
    ghost use Rattle.djq_io.specs.Script.{Script, WhereTold, AnswersByScript, Sends};
    ghost use Rattle.djq_io.specs.declared.hub.Told.{Told};

    // The further turns and who is blocked, if the hub shows them.
    ghost script: { Self → Option Script };

    // All calls so far with their answers, if the hub shows them.
    ghost past: { Self → Option (List Told) };

    // The ids of the sessions, which every hub shows.
    ghost ids: { Self → Ids };

    // How many faults it has met.
    ghost faults: { Self → ℕ };

    // How many faults each session has met.
    ghost session_faults: { Self → ℕ → ℕ };

    /// Begins to accept sessions at the address.
    fn listen(&mut self, addr: &str) -> Listened
        ensures past { Gains (past self.old) (past self.new) (Told.Listening addr.now result ∷ []) }
        ensures script { WhereTold (script self.old) (script self.new) (λ old new. new ≡ old) }
        ensures ids { ids self.new ≡ ids self.old }
        ensures faults { CountsListen result (faults self.old) (faults self.new) }
        ensures sessions { SameCounts (ids self.old).open_ids (session_faults self.old) (session_faults self.new) };

    /// Waits for the next event. Its bytes are at the start of the buffer.
    fn turn(&mut self, buf: &mut [u8]) -> Turn
        requires { 0 < length buf.old }
        ensures past { Gains (past self.old) (past self.new) (Told.Turning result (brought result buf.new) ∷ []) }
        ensures script { WhereTold (script self.old) (script self.new) (AnswersByScript (ids self.old) result buf.new) }
        ensures ids { Turns result (length buf.new) (ids self.old) (ids self.new) }
        ensures faults { CountsTurn result (faults self.old) (faults self.new) }
        ensures sessions { CountsInTurn result (ids self.old).open_ids (session_faults self.old)
            (session_faults self.new) };

    /// Sends a first part of the piece to an open session.
    fn send(&mut self, id: u64, piece: &[u8]) -> Sent
        requires is_open { Contains (ids self.old).open_ids id }
        requires some { 0 < length piece.now }
        ensures takes { Takes result piece.now }
        ensures past { Gains (past self.old) (past self.new)
            (Told.Sending id (length piece.now) result (taken_by result piece.now) ∷ []) }
        ensures script { WhereTold (script self.old) (script self.new) (Sends id (length piece.now) result) }
        ensures ids { ids self.new ≡ ids self.old }
        ensures faults { faults self.new ≡ faults self.old }
        ensures sessions { CountsSend result id (ids self.old).open_ids (session_faults self.old)
            (session_faults self.new) };

    /// Whether the next turn is at hand, so that it wouldn't wait. It is a hint: nothing is asked and
    /// nothing changes.
    fn at_hand(&self) -> bool;

    /// Whether those who wait for a reply have waited so long that no further line should be run before they
    /// are sent what is pending. It is a hint: nothing changes.
    fn is_late(&self) -> bool;

    /// Closes an open session.
    fn close(&mut self, id: u64)
        requires is_open { Contains (ids self.old).open_ids id }
        ensures past { Gains (past self.old) (past self.new) (Told.Closing id ∷ []) }
        ensures script { WhereTold (script self.old) (script self.new) (λ old new. new ≡ old) }
        ensures ids { ids self.new ≡ without (ids self.old) id }
        ensures faults { faults self.new ≡ faults self.old }
        ensures sessions { SameCounts (ids self.new).open_ids (session_faults self.old) (session_faults self.new) };
}
