ghost use Rattle.djq_binder.specs.Asked.{NumberedIsAsked};
ghost use Rattle.djq_live_query.specs.Shown.{AnswersAreShown, AnswersAreListed};
ghost use Rattle.djq_live_query.specs.Shown.{AnswersDiffer, AnswersStand};
ghost use Rattle.djq_live_query.specs.Live.{AnswersAreShowable, ShowableStays};
ghost use Rattle.djq_live_query.specs.Body.{HeadsAreBound};
ghost use Rattle.djq_live_query.specs.Updating.{LeavesAreSmall, FlatMeetsAreEqual};

/// A tuple of values is an answer of the query if and only if an answer of the tree shows it: a
/// tuple of cells whose projection on every node of `out` is in the node's table (Idris, Ugarte and
/// Vansummeren 2017).
pub fn answers_are_shown()
    ensures { AnswersAreShown }
{}

/// The cells of an answer of the tree represent the values that it shows.
pub fn answers_stand()
    ensures { AnswersStand }
{}

/// Different answers of the tree show different tuples.
pub fn answers_differ()
    ensures { AnswersDiffer }
{}

/// A listing of the tree's answers shows a listing of the query's.
pub fn answers_are_listed()
    ensures { AnswersAreListed }
{}

/// A query without a fault is asked by its numbers, once its constants have cells: terms suit their
/// columns, each variable has one type, and comparisons suit it.
pub fn numbered_is_asked()
    ensures { NumberedIsAsked }
{}

/// An answer of a live query can be shown.
pub fn answers_are_showable()
    ensures { AnswersAreShowable }
{}

/// What can be shown stays so as rows change and texts become known, and shows the same values.
pub fn showable_stays()
    ensures { ShowableStays }
{}

/// A live query has each variable of its head in an atom.
pub fn heads_are_bound()
    ensures { HeadsAreBound }
{}

/// A leaf of a live query has no more tuples than its relation has rows.
pub fn leaves_are_small()
    ensures { LeavesAreSmall }
{}

/// The tree of a flat live query has meets of equal labels alone.
pub fn flat_meets_are_equal()
    ensures { FlatMeetsAreEqual }
{}
