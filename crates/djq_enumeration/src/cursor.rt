ghost use Rattle.std.specs.Prelude.{◌≡◌, ◌↔◌, ◌+◌, ◌*◌, ◌≤◌, false, [], ◌∷◌, ◌++◌, length, ℕ, List};
ghost use Rattle.std.specs.Bool.{OnTrue, OnFalse};
ghost use Rattle.djq_reduct.specs.Reducts as spec;
ghost use Rattle.djq_enumeration.specs.Listing.{AreSome, IsTupleLeft, ListsTuples};
ghost use Rattle.djq_reduct.specs.Answers.{IsAnswerOf};
ghost use Rattle.djq_enumeration.specs.Given.{Fits, given};

use crate::left::is_left_by;
use crate::places::Places;
use crate::walk::advance_by;
use crate::whole::Whole;
use djq_counters::Tally;
use djq_reduct::{Answer, Reducts};
use std::sync::ledger::Ledger;

/// The state of a cursor.
#[derive(Clone, Copy, PartialEq, Eq, Debug)]
pub enum State {
    /// Nothing was given.
    Start,
    /// The answer of its places was given last.
    At,
    /// All answers were given.
    End,
}

/// A listing in progress of the answers that reducts have. It needs no memory but its own.
///
/// A cursor fits reducts only as long as nothing changes them. It doesn't notice a change: a
/// caller starts anew.
#[derive(Debug, Drop)]
pub struct Cursor {
    pub places: Places,
    pub state: State,
    /// The answer that was given last, of which a step writes what it changes.
    pub answer: Answer,
}

impl Cursor {
    /// A cursor that has given nothing, which fits any reducts.
    pub fn start() -> Cursor
        ensures fits { (r : spec.Reducts) → Fits r result }
        ensures none { (r : spec.Reducts) → given r result ≡ [] }
    {
        Cursor {
            places: Places::new(),
            state: State::Start,
            answer: Answer::new(0),
        }
    }

    /// Moves to one answer that is left, which the cursor holds then, and returns true; false if
    /// none is. Each call counts at most two lookups and links for each variable of the head, and
    /// one.
    pub fn step<L: Ledger>(&mut self, reducts: &Reducts, listing: &mut Tally<L>) -> bool
        requires { Fits reducts.now self.old }
        ensures fits { Fits reducts.now self.new }
        ensures one { OnTrue result
            (given reducts.now self.new ≡ given reducts.now self.old ++ self.new.answer ∷ []) }
        ensures same { OnFalse result (given reducts.now self.new ≡ given reducts.now self.old) }
        ensures answers { AreSome (IsAnswerOf reducts.now) (given reducts.now self.new) }
        ensures end { result ≡ false
            ↔ ListsTuples (IsAnswerOf reducts.now) (given reducts.now self.old) }
        ensures counted { listing.new ≤ listing.old + (2 * length reducts.now.tree.head + 1) }
    {
        reducts.laws();
        advance_by(&Whole, reducts, self, listing)
    }

    /// Gives one answer that is left, and returns true; false if none is. It is a
    /// [`step`](Cursor::step) and a copy of the answer.
    pub fn advance<L: Ledger>(
        &mut self,
        reducts: &Reducts,
        answer: &mut Answer,
        listing: &mut Tally<L>,
    ) -> bool
        requires { Fits reducts.now self.old }
        ensures fits { Fits reducts.now self.new }
        ensures one { OnTrue result
            (given reducts.now self.new ≡ given reducts.now self.old ++ answer.new ∷ []) }
        ensures same { OnFalse result (given reducts.now self.new ≡ given reducts.now self.old) }
        ensures answers { AreSome (IsAnswerOf reducts.now) (given reducts.now self.new) }
        ensures end { result ≡ false
            ↔ ListsTuples (IsAnswerOf reducts.now) (given reducts.now self.old) }
        ensures counted { listing.new ≤ listing.old + (2 * length reducts.now.tree.head + 1) }
    {
        if !self.step(reducts, listing) {
            return false;
        }
        *answer = self.answer.copy();
        true
    }

    /// Whether an answer is left. The cursor doesn't move. If it has given nothing a call counts
    /// one lookup, and later at most one link for each variable of the head.
    pub fn is_left<L: Ledger>(&self, reducts: &Reducts, listing: &mut Tally<L>) -> bool
        requires { Fits reducts.now self.now }
        ensures answers { AreSome (IsAnswerOf reducts.now) (given reducts.now self.now) }
        ensures left { OnTrue result ((u : List ℕ)
            × IsTupleLeft (IsAnswerOf reducts.now) (given reducts.now self.now) u) }
        ensures end { result ≡ false
            ↔ ListsTuples (IsAnswerOf reducts.now) (given reducts.now self.now) }
        ensures counted { listing.new ≤ listing.old + (length reducts.now.tree.head + 1) }
    {
        reducts.laws();
        is_left_by(&Whole, reducts, self, listing)
    }
}
