ghost use Rattle.std.specs.Prelude.{◌≡◌, ◌≢◌, ◌+◌, ◌<◌, [], ◌∷◌, ◌++◌, ◌==◌, length, false, MatchOption, OnOk, OnErr};
ghost use Rattle.std.specs.List.{list_any};
ghost use Rattle.djq_io.specs.Script.{ScriptPasses};

use crate::hub::{Coming, Incoming};
use crate::id_list::IdList;
use crate::piece::Piece;
use std::alloc::{AllocError, Global};
use std::collections::VecDeque;
use std::marker::Model;

/// What is left of a piece of which a first part was given.
#[derive(Debug, Drop)]
struct Rest {
    id: u64,
    piece: Piece,
}

/// A script from its present turn on.
///
/// The turn of a piece of which a first part was given isn't put back into the queue: its rest
/// is before it, and who is blocked after it is blocked already.
#[derive(Debug, Drop)]
pub(crate) struct ScriptQueue {
    blocked: IdList,
    rest: Option<Rest>,
    turns: VecDeque<Coming>,
}

impl Model for ScriptQueue {
    ghost use Rattle.std.specs.Prelude.{is_some};
    ghost use Rattle.djq_io.specs.ScriptQueue.{Queue, turns_to_come};

    ghost Value = { Queue };

    ghost view = { λ q. record {
      script = record { blocked = q.blocked; turns = turns_to_come q.rest q.blocked q.turns.items };
      has_rest = is_some q.rest;
    } };
}

impl ScriptQueue {
    /// A script without turns.
    pub(crate) fn new(alloc: Global) -> Self
        ensures { result.script ≡ record { blocked = []; turns = [] } }
    {
        ScriptQueue {
            blocked: IdList::empty(alloc),
            rest: None,
            turns: VecDeque::new(alloc),
        }
    }

    /// Appends a turn.
    pub(crate) fn push(&mut self, coming: Coming) -> Result<(), AllocError>
        ensures ok { OnOk result (self.new.script ≡ record self.old.script
            { turns = self.old.script.turns ++ coming ∷ [] }) }
        ensures err { OnErr result (self.new.script ≡ self.old.script) }
    {
        self.turns.push_back(coming)?;
        Ok(())
    }

    /// More than the number of further turns, by at most 2.
    pub(crate) fn len_bound(&self) -> usize
        ensures { length self.now.script.turns < result }
    {
        self.turns.len() + 2
    }

    /// Whether sends to this session are to answer `Again` now.
    pub(crate) fn is_blocked(&self, id: u64) -> bool
        ensures { result ≡ list_any (λ other. other == id) self.now.script.blocked }
    {
        self.blocked.contains(id)
    }

    /// Removes the next turn and returns it.
    pub(crate) fn pop(&mut self) -> Option<Incoming>
        ensures next { MatchOption result ((self.old.script.turns ≡ [])
            × (self.new.script ≡ self.old.script)) (λ next. ScriptPasses self.old.script next
            self.new.script) }
        ensures whole { self.new.has_rest ≡ false }
    {
        if let Some(Rest { id, piece }) = self.rest.take() {
            return Some(Incoming::Brings(id, piece));
        }
        let Coming { turn, blocked } = self.turns.pop_front()?;
        self.blocked = blocked;
        Some(turn)
    }

    /// Puts the rest of a piece back, of the turn that was removed last.
    pub(crate) fn put_back(&mut self, id: u64, piece: Piece)
        requires { self.old.has_rest ≡ false }
        ensures { self.new.script ≡ record self.old.script {
          turns = record { turn = Incoming.Brings id piece; blocked = self.old.script.blocked }
              ∷ self.old.script.turns;
        } }
    {
        self.rest = Some(Rest { id, piece });
    }
}
