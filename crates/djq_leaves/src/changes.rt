//! Calls of a catalog as changes of rows, and what leaves hold after them.
ghost use Rattle.djq_leaves.specs.Changes.{AddedCame, DeletedWent, FurtherWent, CopiesKeepRows};
ghost use Rattle.djq_leaves.specs.Changes.{LeafIsEmpty, LeafGains, LeafIsFilled};

/// Adding a row to a catalog, with one copy, is an insertion.
pub fn added_came()
    ensures { AddedCame }
{}

/// Deleting a row from a catalog, with its last copy, is a deletion.
pub fn deleted_went()
    ensures { DeletedWent }
{}

/// A deletion after others of the relation is one of them all.
pub fn further_went()
    ensures { FurtherWent }
{}

/// If a catalog added a further copy of a row, or deleted one of several, no relation has other
/// rows.
pub fn copies_keep_rows()
    ensures { CopiesKeepRows }
{}

/// A leaf without tuples holds those of no rows.
pub fn leaf_is_empty()
    ensures { LeafIsEmpty }
{}

/// A leaf that gains the tuples of further rows holds those of the rows before and of these.
pub fn leaf_gains()
    ensures { LeafGains }
{}

/// A leaf that holds the tuples of all rows of a relation holds what it should.
pub fn leaf_is_filled()
    ensures { LeafIsFilled }
{}
