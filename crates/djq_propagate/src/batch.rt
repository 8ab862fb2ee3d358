//! The calls of an update of many tuples of one leaf.

ghost use Rattle.std.specs.Prelude.{ℕ, ◌+◌, ◌<◌, ◌≤◌, length, IfOk, OnErr};
ghost use Rattle.djq_tree.specs.Flat.{HasEqualMeets};
ghost use Rattle.djq_tree.specs.Labels.{label_at};
ghost use Rattle.djq_reduct.specs.Tables.{entries_at};
ghost use Rattle.djq_reduct.specs.Marks.{IsBare};
ghost use Rattle.djq_propagate.specs.Batches.{AreNew, AreThere, HasInsertedAll, HasGainedAll, HasLostAll};
ghost use Rattle.djq_propagate.specs.Bounds.{after_insert, after_refusal, after_add, after_take};
ghost use Rattle.djq_propagate.specs.Touches.{HaveMarksUpTo};
ghost use Rattle.djq_propagate.specs.Updates.{HasKept, HasAtMost};
ghost use Rattle.djq_index.specs.declared.table.TheConstants.{TUPLES};

use crate::many::{insert_all, remove_all};
use crate::path::touch_path;
use djq_counters::Tally;
use djq_reduct::{Cells, Reducts};
use std::alloc::AllocError;
use std::sync::ledger::Ledger;

/// Inserts tuples into a leaf's table at once, and what follows from them into the tables above. All of these are marked
/// until the update is ended by [`finish_insertion`](crate::finish_insertion) or undone by
/// [`undo_insertion`](crate::undo_insertion). Without tuples it marks nothing, and is to be ended, too. It fails only
/// out of memory, and then all tables hold what they held, without marks.
///
/// Its bound is that of [`insert_leaf`](crate::insert_leaf), with all new tuples counted in. Over a tree of equal meets
/// it is what it would be if no leaf had more tuples than are new.
pub fn insert_leaf_many<L: Ledger>(
    reducts: &mut Reducts,
    leaf: usize,
    tuples: &[Cells],
    tally: &mut Tally<L>,
) -> Result<(), AllocError>
    requires leaf { leaf < reducts.old.tree.leaves }
    requires fresh { AreNew (length (label_at reducts.old.tree.labels leaf))
        (entries_at reducts.old.tables leaf) tuples.now }
    requires few { length (entries_at reducts.old.tables leaf) + length tuples.now ≤ TUPLES }
    requires bare { IsBare reducts.old.tables }
    ensures inserted { IfOk result (λ _. HasInsertedAll reducts.old reducts.new leaf tuples.now) }
    ensures refused { OnErr result (HasKept reducts.old reducts.new) }
    ensures counted { IfOk result (λ _. (n : ℕ) → 0 < n → HasAtMost reducts.new n
        → tally.new ≤ after_insert reducts.old.tree n tally.old) }
    ensures bounded { OnErr result ((n : ℕ) → HasAtMost reducts.old n
        → length (entries_at reducts.old.tables leaf) + length tuples.now ≤ n
        → tally.new ≤ after_refusal reducts.old.tree n tally.old) }
    ensures few { IfOk result (λ _. HasEqualMeets reducts.old.tree → HaveMarksUpTo (length tuples.now) reducts.new.tables) }
    ensures flat { IfOk result (λ _. (n : ℕ) → 0 < n → length tuples.now ≤ n → HasEqualMeets reducts.old.tree
        → tally.new ≤ after_insert reducts.old.tree n tally.old) }
{
    insert_all(
        &reducts.tree,
        &mut reducts.tables,
        leaf,
        tuples,
        true,
        tally,
    )?;
    touch_path(&reducts.tree, &mut reducts.tables, leaf, false, tally);
    Ok(())
}

/// Puts tuples into a leaf's table at once, and what they bring into the tables above, without marks: the
/// update ends at once. It fails only for want of memory, and then all tables hold what they held.
pub fn add_leaf_many<L: Ledger>(
    reducts: &mut Reducts,
    leaf: usize,
    tuples: &[Cells],
    tally: &mut Tally<L>,
) -> Result<(), AllocError>
    requires leaf { leaf < reducts.old.tree.leaves }
    requires fresh { AreNew (length (label_at reducts.old.tree.labels leaf))
        (entries_at reducts.old.tables leaf) tuples.now }
    requires few { length (entries_at reducts.old.tables leaf) + length tuples.now ≤ TUPLES }
    requires bare { IsBare reducts.old.tables }
    ensures gained { IfOk result (λ _. HasGainedAll reducts.old reducts.new leaf tuples.now) }
    ensures refused { OnErr result (HasKept reducts.old reducts.new) }
    ensures counted { IfOk result (λ _. (n : ℕ) → HasAtMost reducts.new n
        → tally.new ≤ after_add reducts.old.tree n tally.old) }
    ensures bounded { OnErr result ((n : ℕ) → HasAtMost reducts.old n
        → length (entries_at reducts.old.tables leaf) + length tuples.now ≤ n
        → tally.new ≤ after_refusal reducts.old.tree n tally.old) }
    ensures flat { IfOk result (λ _. (n : ℕ) → length tuples.now ≤ n → HasEqualMeets reducts.old.tree
        → tally.new ≤ after_add reducts.old.tree n tally.old) }
{
    insert_all(
        &reducts.tree,
        &mut reducts.tables,
        leaf,
        tuples,
        false,
        tally,
    )?;
    Ok(())
}

/// Deletes tuples from a leaf's table at once, and what depends on them from the tables above, without marks: the update
/// ends at once. It needs no memory.
pub fn drop_leaf_many<L: Ledger>(
    reducts: &mut Reducts,
    leaf: usize,
    tuples: &[Cells],
    tally: &mut Tally<L>,
)
    requires leaf { leaf < reducts.old.tree.leaves }
    requires there { AreThere (entries_at reducts.old.tables leaf) tuples.now }
    requires bare { IsBare reducts.old.tables }
    ensures lost { HasLostAll reducts.old reducts.new leaf tuples.now }
    ensures counted { (n : ℕ) → HasAtMost reducts.old n → tally.new ≤ after_take reducts.old.tree n tally.old }
{
    remove_all(
        &reducts.tree,
        &mut reducts.tables,
        leaf,
        tuples,
        tuples.len(),
        tally,
    );
}
