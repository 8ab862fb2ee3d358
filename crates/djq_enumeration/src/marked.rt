ghost use Rattle.std.specs.Prelude.{◌≡◌};
ghost use Rattle.djq_enumeration.specs.Told.{kept};

use crate::{Choice, Choices, source};
use djq_counters::Tally;
use djq_index::Place;
use djq_reduct::Reducts;
use std::sync::ledger::Ledger;

/// The choices that list the changed answers: the marked tuples of a group if there are any, else
/// all of it.
///
/// The marked ones are the last of their group, so it is walked from its end. No look at the path
/// is needed: if a chosen tuple is marked, the one before it must be, too.
#[derive(Clone, Copy, Debug)]
pub(crate) struct Marked;

impl Choices for Marked {
    ghost use Rattle.djq_enumeration.specs.Told.{changed_at, root_marked};

    ghost menu = { λ _ r. changed_at r };

    ghost entered = { λ _ r. root_marked r };

    fn enter<L: Ledger>(&self, reducts: &Reducts, listing: &mut Tally<L>) -> bool {
        reducts.laws();
        let root = reducts.tree().len() - 1;
        let table = reducts.table(root);
        match table.find(&[], listing) {
            None => false,
            Some(place) => table.marked(place),
        }
    }

    fn first<L: Ledger>(
        &self,
        reducts: &Reducts,
        level: usize,
        key: &[u64],
        listing: &mut Tally<L>,
    ) -> Option<Place> {
        reducts.laws();
        let node = source(reducts.tree(), level);
        reducts.table(node).last(key, listing)
    }

    fn next<L: Ledger>(
        &self,
        reducts: &Reducts,
        choice: Choice,
        listing: &mut Tally<L>,
    ) -> Option<Place> {
        reducts.laws();
        let node = source(reducts.tree(), choice.level);
        let table = reducts.table(node);
        let Some(before) = table.prev(choice.place, listing) else {
            return None;
        };
        let here_marked = table.marked(choice.place);
        let before_marked = table.marked(before);
        keep(before, here_marked, before_marked)
    }
}

/// The place before a chosen one; none if only the chosen one is marked.
fn keep(before: Place, here_marked: bool, before_marked: bool) -> Option<Place>
    ensures { result ≡ kept (Some before) here_marked before_marked }
{
    if here_marked && !before_marked {
        return None;
    }
    Some(before)
}
