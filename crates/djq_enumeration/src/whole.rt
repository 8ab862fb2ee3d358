use crate::choices::Choices;
use crate::levels::source;
use crate::places::Choice;
use djq_counters::Tally;
use djq_index::Place;
use djq_reduct::Reducts;
use std::sync::ledger::Ledger;

/// The choices that list all answers: at each level the whole group.
#[derive(Clone, Copy, Debug)]
pub(crate) struct Whole;

impl Choices for Whole {
    ghost use Rattle.djq_enumeration.specs.Levels.{group_at};
    ghost use Rattle.djq_enumeration.specs.Given.{has_root};

    ghost menu = { λ _ r. group_at r };

    ghost entered = { λ _ r. has_root r };

    fn enter<L: Ledger>(&self, reducts: &Reducts, listing: &mut Tally<L>) -> bool {
        let root = reducts.tree().len() - 1;
        reducts.table(root).find(&[], listing).is_some()
    }

    fn first<L: Ledger>(
        &self,
        reducts: &Reducts,
        level: usize,
        key: &[u64],
        listing: &mut Tally<L>,
    ) -> Option<Place> {
        reducts.laws();
        let node = source(reducts.tree(), level);
        reducts.table(node).first(key, listing)
    }

    fn next<L: Ledger>(
        &self,
        reducts: &Reducts,
        choice: Choice,
        listing: &mut Tally<L>,
    ) -> Option<Place> {
        reducts.laws();
        let node = source(reducts.tree(), choice.level);
        reducts.table(node).next(choice.place, listing)
    }
}
