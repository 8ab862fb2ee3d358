ghost use Rattle.std.specs.Prelude.{◌≡◌, ◌+◌, ◌≤◌, [], ◌∷◌, ◌++◌, length, ℕ, List};
ghost use Rattle.std.specs.Bool.{OnTrue, OnFalse};
ghost use Rattle.djq_tree.specs.Levels.{levels};
ghost use Rattle.djq_enumeration.specs.Menus.{TuplesOnce};
ghost use Rattle.djq_enumeration.specs.Walk.{
  Descends,
  FitsBy,
  HasNext,
  IsClear,
  IsComplete,
  MenusAreOpen,
  ahead_of,
  all_given,
  menu_answers,
  blank,
  walk_given,
  made_by,
};

use crate::choices::Choices;
use crate::cursor::{Cursor, State};
use crate::places::Places;
use djq_counters::Tally;
use djq_reduct::Reducts;
use std::sync::ledger::Ledger;

/// Whether some choice has a next tuple, asked from the last one up: then there are answers after
/// the one that the choices make.
fn has_next<C: Choices, L: Ledger>(
    choices: &C,
    reducts: &Reducts,
    places: &Places,
    listing: &mut Tally<L>,
) -> bool
    requires once { (k : ℕ) (w : List ℕ) → TuplesOnce (C.menu choices.now reducts.now k w) }
    requires opened { MenusAreOpen reducts.now.tree (C.menu choices.now reducts.now)
        (levels reducts.now.tree) (blank reducts.now.tree) }
    requires descends { Descends reducts.now (C.menu choices.now reducts.now) places.now }
    requires whole { IsComplete reducts.now places.now }
    ensures next { OnTrue result
        (HasNext (ahead_of reducts.now (C.menu choices.now reducts.now) places.now
        ++ made_by reducts.now places.now ∷ [])
        (menu_answers reducts.now.tree (C.menu choices.now reducts.now))) }
    ensures all { OnFalse result
        (menu_answers reducts.now.tree (C.menu choices.now reducts.now) ≡ ahead_of reducts.now
        (C.menu choices.now reducts.now) places.now ++ made_by reducts.now places.now ∷ []) }
    ensures counted { listing.new ≤ listing.old + length (levels reducts.now.tree) }
{
    let made = places.as_slice();
    let mut at = made.len();
    while 0 < at {
        at -= 1;
        if choices.next(reducts, made[at], listing).is_some() {
            return true;
        }
    }
    false
}

/// Whether an answer is left of a listing. It counts one lookup at the start, and later at most one
/// link for each variable of the head.
pub fn is_left_by<C: Choices, L: Ledger>(
    choices: &C,
    reducts: &Reducts,
    cursor: &Cursor,
    listing: &mut Tally<L>,
) -> bool
    requires clear { IsClear reducts.now (C.menu choices.now reducts.now)
        (C.entered choices.now reducts.now) }
    requires fits { FitsBy reducts.now (C.menu choices.now reducts.now)
        (C.entered choices.now reducts.now) cursor.now.state cursor.now.places
        cursor.now.answer }
    ensures next { OnTrue result
        (HasNext (walk_given reducts.now (C.menu choices.now reducts.now)
        (C.entered choices.now reducts.now) cursor.now.state cursor.now.places)
        (all_given reducts.now (C.menu choices.now reducts.now)
        (C.entered choices.now reducts.now))) }
    ensures all { OnFalse result
        (walk_given reducts.now (C.menu choices.now reducts.now) (C.entered choices.now reducts.now)
        cursor.now.state cursor.now.places ≡ all_given reducts.now (C.menu choices.now reducts.now)
        (C.entered choices.now reducts.now)) }
    ensures counted { listing.new ≤ listing.old + (length reducts.now.tree.head + 1) }
{
    reducts.laws();
    reducts.tree().is_small();
    match cursor.state {
        State::Start => choices.enter(reducts, listing),
        State::At => has_next(choices, reducts, &cursor.places, listing),
        State::End => false,
    }
}
