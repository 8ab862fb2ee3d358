ghost use Rattle.std.specs.Prelude.{◌≡◌, ◌↔◌, ◌+◌, ◌*◌, ◌<◌, ◌≤◌, ℕ, List, false, [], ◌∷◌, ◌++◌, length};
ghost use Rattle.std.specs.Bool.{OnTrue, OnFalse};
ghost use Rattle.djq_reduct.specs.Reducts as spec;
ghost use Rattle.djq_reduct.specs.Reducts.{IsReducts};
ghost use Rattle.djq_reduct.specs.Marks.{AreMarks, IsWithout};
ghost use Rattle.djq_enumeration.specs.Listing.{AreSome, ListsTuples};
ghost use Rattle.djq_enumeration.specs.Changed.{IsChanged, IsGained};
ghost use Rattle.djq_enumeration.specs.Told.{DeltaFits, told_so_far};

use crate::marked::Marked;
use crate::{Cursor, Places, State, advance_by};
use djq_counters::Tally;
use djq_reduct::{Answer, Reducts};
use std::sync::ledger::Ledger;

/// A listing in progress of the answers that an update of one leaf changes. It needs no memory but
/// its own.
///
/// It fits reducts and their marks only as long as nothing changes them.
#[derive(Debug, Drop)]
pub struct DeltaCursor {
    /// The leaf of the update.
    pub leaf: usize,
    pub cursor: Cursor,
}

impl DeltaCursor {
    /// A cursor that has given nothing, which fits any reducts.
    pub fn start(leaf: usize) -> DeltaCursor
        ensures leaf { result.leaf ≡ leaf }
        ensures fits { (r : spec.Reducts) → DeltaFits r result }
        ensures none { (r : spec.Reducts) → told_so_far r result ≡ [] }
    {
        DeltaCursor {
            leaf,
            cursor: Cursor {
                places: Places::new(),
                state: State::Start,
                answer: Answer::new(0),
            },
        }
    }

    /// Moves to one changed answer that is left, which the cursor holds then, and returns true;
    /// false if none is. Each call counts at most two lookups and links for each variable of the
    /// head, and one.
    pub fn step<L: Ledger>(&mut self, reducts: &Reducts, listing: &mut Tally<L>) -> bool
        requires leaf { self.old.leaf < reducts.now.tree.leaves }
        requires marks { AreMarks reducts.now.tree reducts.now.tables self.old.leaf }
        requires fits { DeltaFits reducts.now self.old }
        ensures leaf { self.new.leaf ≡ self.old.leaf }
        ensures fits { DeltaFits reducts.now self.new }
        ensures one { OnTrue result
            (told_so_far reducts.now self.new ≡ told_so_far reducts.now self.old
            ++ (self.new.cursor).answer ∷ []) }
        ensures same { OnFalse result (told_so_far reducts.now self.new ≡ told_so_far reducts.now self.old) }
        ensures answers { AreSome (IsChanged reducts.now self.old.leaf)
            (told_so_far reducts.now self.new) }
        ensures end { result ≡ false
            ↔ ListsTuples (IsChanged reducts.now self.old.leaf) (told_so_far reducts.now self.old) }
        ensures counted { listing.new ≤ listing.old + (2 * length reducts.now.tree.head + 1) }
    {
        reducts.laws();
        advance_by(&Marked, reducts, &mut self.cursor, listing)
    }

    /// Gives one changed answer that is left, and returns true; false if none is. It is a
    /// [`step`](DeltaCursor::step) and a copy of the answer.
    pub fn advance<L: Ledger>(
        &mut self,
        reducts: &Reducts,
        answer: &mut Answer,
        listing: &mut Tally<L>,
    ) -> bool
        requires leaf { self.old.leaf < reducts.now.tree.leaves }
        requires marks { AreMarks reducts.now.tree reducts.now.tables self.old.leaf }
        requires fits { DeltaFits reducts.now self.old }
        ensures leaf { self.new.leaf ≡ self.old.leaf }
        ensures fits { DeltaFits reducts.now self.new }
        ensures one { OnTrue result
            (told_so_far reducts.now self.new ≡ told_so_far reducts.now self.old ++ answer.new ∷ []) }
        ensures same { OnFalse result (told_so_far reducts.now self.new ≡ told_so_far reducts.now self.old) }
        ensures answers { AreSome (IsChanged reducts.now self.old.leaf)
            (told_so_far reducts.now self.new) }
        ensures end { result ≡ false
            ↔ ListsTuples (IsChanged reducts.now self.old.leaf) (told_so_far reducts.now self.old) }
        ensures counted { listing.new ≤ listing.old + (2 * length reducts.now.tree.head + 1) }
    {
        if !self.step(reducts, listing) {
            return false;
        }
        *answer = self.cursor.answer.copy();
        true
    }
}

/// What the changed answers are: those that the reducts have with the marked tuples of the leaf, and
/// don't have without them. So they are what an insertion added, or what a removal will remove. It
/// does nothing.
pub fn changes_are(reducts: &Reducts, leaf: usize)
    requires leaf { leaf < reducts.now.tree.leaves }
    requires marks { AreMarks reducts.now.tree reducts.now.tables leaf }
    ensures { (small : spec.Reducts) → IsReducts small → IsWithout reducts.now small leaf
        → (b : List ℕ) → IsChanged reducts.now leaf b ↔ IsGained reducts.now small b }
{
    reducts.laws();
}
