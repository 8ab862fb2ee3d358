use crate::places::Choice;
use djq_counters::Tally;
use djq_index::Place;
use djq_reduct::Reducts;
use std::sync::ledger::Ledger;

/// What a listing chooses from at each level: whole groups, or the part of them that an update
/// changed.
pub trait Choices {
    ghost use Rattle.std.specs.Prelude.{◌≡◌, ℕ, ◌+◌, Bool, true, List, [], IfSome, IfNone};
    ghost use Rattle.djq_index.specs.Table.{IsOccupied};
    ghost use Rattle.djq_reduct.specs.Tables.{entries_at};
    ghost use Rattle.djq_reduct.specs.Reducts.{Reducts};
    ghost use Rattle.djq_enumeration.specs.Menus.{has_tuple, tuples_behind};
    ghost use Rattle.djq_enumeration.specs.Levels.{IsLevel};
    ghost use Rattle.djq_enumeration.specs.Walk.{IsFirstAt, IsAlive, chosen};

    /// The tuples of a level, by the cells of its label.
    ghost menu: { Self → Reducts → ℕ → List ℕ → List (List ℕ) };

    /// Whether there is anything to list.
    ghost entered: { Self → Reducts → Bool };

    /// Whether there is anything to list. It counts one lookup.
    fn enter<L: Ledger>(&self, reducts: &Reducts, listing: &mut Tally<L>) -> bool
        ensures entered { result ≡ entered self.now reducts.now }
        ensures counted { listing.new ≡ listing.old + 1 };

    /// The first tuple to choose at a level; none if there is none. It counts one
    /// lookup.
    fn first<L: Ledger>(
        &self,
        reducts: &Reducts,
        level: usize,
        key: &[u64],
        listing: &mut Tally<L>,
    ) -> Option<Place>
        requires { IsLevel reducts.now.tree level }
        ensures some { IfSome result
            (λ p. IsFirstAt reducts.now (menu self.now reducts.now level key.now)
            (record { level = level; place = p })) }
        ensures none { IfNone result (menu self.now reducts.now level key.now ≡ []) }
        ensures counted { listing.new ≡ listing.old + 1 };

    /// The tuple after a chosen one; none if it is the last. It counts one link.
    fn next<L: Ledger>(
        &self,
        reducts: &Reducts,
        choice: Choice,
        listing: &mut Tally<L>,
    ) -> Option<Place>
        requires { IsAlive reducts.now choice }
        ensures some { IfSome result
            (λ p. (w : List ℕ)
            → has_tuple (menu self.now reducts.now choice.level w) (chosen reducts.now choice) ≡ true
            → IsFirstAt reducts.now
            (tuples_behind (menu self.now reducts.now choice.level w) (chosen reducts.now choice))
            (record { level = choice.level; place = p })) }
        ensures none { IfNone result
            ((w : List ℕ)
            → has_tuple (menu self.now reducts.now choice.level w) (chosen reducts.now choice) ≡ true
            → tuples_behind (menu self.now reducts.now choice.level w) (chosen reducts.now choice) ≡ []) }
        ensures counted { listing.new ≡ listing.old + 1 };
}
