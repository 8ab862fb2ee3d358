use djq_counters::Tally;
use std::sync::ledger::Ledger;

/// What lists its answers, one a call and each once.
pub trait Listing {
    ghost use Rattle.std.specs.Prelude.{
      ◌≡◌,
      ◌↔◌,
      ℕ,
      ◌+◌,
      ◌≤◌,
      Bool,
      false,
      List,
      [],
      ◌∷◌,
      ◌++◌,
    };
    ghost use Rattle.std.specs.Bool.{OnTrue, OnFalse};
    ghost use Rattle.djq_union.specs.Answers.{AreSomeCells, AreAllCells, IsListingOfCells};

    /// The progress of a listing.
    type State: Drop;

    /// An answer. Equal ones are one answer.
    type Answer;

    /// Whether this is one of the answers.
    ghost has: { Self → Self.Answer → Bool };

    /// What a listing has given, in the order in which it gave it.
    ghost given: { Self → Self.State → List Self.Answer };

    /// Whether its answers may be listed and asked for.
    ghost ready: { Self → Type 0 };

    /// Whether the state is one of a listing of these answers, as they are now.
    ghost fits: { Self → Self.State → Type 0 };

    /// What a call of `advance` or `is_left` counts at most.
    ghost most: { Self → ℕ };

    /// What a call of `has` counts at most.
    ghost asks: { Self → ℕ };

    /// A listing that has given nothing.
    fn start(&self) -> Self::State
        requires { ready self.now }
        ensures fits { fits self.now result }
        ensures none { given self.now result ≡ [] };

    /// Gives one answer that is left, and returns true; false if and only if none is left.
    fn advance<L: Ledger>(
        &self,
        state: &mut Self::State,
        out: &mut Self::Answer,
        listing: &mut Tally<L>,
    ) -> bool
        requires { fits self.now state.old }
        ensures fits { fits self.now state.new }
        ensures one { OnTrue result
            (given self.now state.new ≡ given self.now state.old ++ out.new ∷ []) }
        ensures same { OnFalse result (given self.now state.new ≡ given self.now state.old) }
        ensures answers { AreSomeCells (has self.now) (given self.now state.new) }
        ensures end { result ≡ false ↔ IsListingOfCells (has self.now) (given self.now state.old) }
        ensures counted { listing.new ≤ listing.old + most self.now };

    /// Whether an answer is left.
    fn is_left<L: Ledger>(&self, state: &Self::State, listing: &mut Tally<L>) -> bool
        requires { fits self.now state.now }
        ensures left { result ≡ false ↔ AreAllCells (has self.now) (given self.now state.now) }
        ensures counted { listing.new ≤ listing.old + most self.now };

    /// Whether this is one of the answers.
    fn has<L: Ledger>(&self, answer: &Self::Answer, listing: &mut Tally<L>) -> bool
        requires { ready self.now }
        ensures has { result ≡ has self.now answer.now }
        ensures counted { listing.new ≤ listing.old + asks self.now };
}
