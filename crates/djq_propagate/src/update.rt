//! The calls of an update. Over a tree of equal meets each of them counts at most what it would if no leaf
//! had more than one tuple.

ghost use Rattle.std.specs.Prelude.{◌≡◌, ℕ, ◌+◌, ◌<◌, ◌≤◌, List, length, IfOk, OnErr};
ghost use Rattle.djq_index.specs.Entries.{count_of};
ghost use Rattle.djq_tree.specs.Flat.{HasEqualMeets};
ghost use Rattle.djq_tree.specs.Labels.{label_at};
ghost use Rattle.djq_reduct.specs.Tables.{entries_at};
ghost use Rattle.djq_reduct.specs.Reducts.{IsReducts, SameTables};
ghost use Rattle.djq_reduct.specs.Reducts as spec;
ghost use Rattle.djq_reduct.specs.Marks.{IsBare, AreOnPath, IsWithout};
ghost use Rattle.djq_propagate.specs.Touches.{HaveFew, HaveMarksUpTo, HaveMarksOnlyAt};
ghost use Rattle.djq_propagate.specs.Updates.{HasInserted, HasMarked, HasMarkedMore, HasMarkedAbove, HasKept, HasDropped};
ghost use Rattle.djq_propagate.specs.Updates.{HasGained, HasLost, HasAtMost};
ghost use Rattle.djq_propagate.specs.Bounds.{after_insert, after_refusal, after_mark, after_keep};
ghost use Rattle.djq_propagate.specs.Bounds.{after_drop, after_add, after_take, HasVariables};
ghost use Rattle.djq_propagate.specs.Bounds.{AddUp, after_mark_above};
ghost use Rattle.djq_index.specs.declared.table.TheConstants.{TUPLES};

use crate::insertion::insert_tuple;
use crate::path::{clear_path, take_marked, touch_path};
use crate::removal::find_and_remove;
use crate::touch::touch_tuple;
use djq_counters::Tally;
use djq_reduct::Reducts;
use djq_tree::Tree;
use std::alloc::AllocError;
use std::sync::ledger::Ledger;

/// Inserts a tuple into a leaf's table, and what follows from it into the tables above. All of these are
/// marked until the update is ended by [`finish_insertion`] or undone by [`undo_insertion`]. It fails only out
/// of memory, and then all tables hold what they held, without marks.
pub fn insert_leaf<L: Ledger>(
    reducts: &mut Reducts,
    leaf: usize,
    tuple: &[u64],
    tally: &mut Tally<L>,
) -> Result<(), AllocError>
    requires leaf { leaf < reducts.old.tree.leaves }
    requires wide { length tuple.now ≡ length (label_at reducts.old.tree.labels leaf) }
    requires absent { count_of (entries_at reducts.old.tables leaf) tuple.now ≡ 0 }
    requires few { length (entries_at reducts.old.tables leaf) < TUPLES }
    requires bare { IsBare reducts.old.tables }
    ensures inserted { IfOk result (λ _. HasInserted reducts.old reducts.new leaf tuple.now) }
    ensures refused { OnErr result (HasKept reducts.old reducts.new) }
    ensures counted { IfOk result (λ _. (n : ℕ) → HasAtMost reducts.new n
        → tally.new ≤ after_insert reducts.old.tree n tally.old) }
    ensures bounded { OnErr result ((n : ℕ) → HasAtMost reducts.old n
        → length (entries_at reducts.old.tables leaf) < n
        → tally.new ≤ after_refusal reducts.old.tree n tally.old) }
    ensures few { IfOk result (λ _. HasEqualMeets reducts.old.tree → HaveFew reducts.new.tables) }
    ensures flat { IfOk result (λ _. HasEqualMeets reducts.old.tree
        → tally.new ≤ after_insert reducts.old.tree 1 tally.old) }
    ensures flat_refused { OnErr result (HasEqualMeets reducts.old.tree
        → tally.new ≤ after_refusal reducts.old.tree 1 tally.old) }
{
    insert_tuple(&reducts.tree, &mut reducts.tables, leaf, tuple, true, tally)?;
    touch_path(&reducts.tree, &mut reducts.tables, leaf, false, tally);
    Ok(())
}

/// Puts a tuple into a leaf's table, and what it brings into the tables above, without marks: the update
/// ends at once. It fails only for want of memory, and then all tables hold what they held.
pub fn add_leaf<L: Ledger>(
    reducts: &mut Reducts,
    leaf: usize,
    tuple: &[u64],
    tally: &mut Tally<L>,
) -> Result<(), AllocError>
    requires leaf { leaf < reducts.old.tree.leaves }
    requires wide { length tuple.now ≡ length (label_at reducts.old.tree.labels leaf) }
    requires absent { count_of (entries_at reducts.old.tables leaf) tuple.now ≡ 0 }
    requires few { length (entries_at reducts.old.tables leaf) < TUPLES }
    requires bare { IsBare reducts.old.tables }
    ensures gained { IfOk result (λ _. HasGained reducts.old reducts.new leaf tuple.now) }
    ensures refused { OnErr result (HasKept reducts.old reducts.new) }
    ensures counted { IfOk result (λ _. (n : ℕ) → HasAtMost reducts.new n
        → tally.new ≤ after_add reducts.old.tree n tally.old) }
    ensures bounded { OnErr result ((n : ℕ) → HasAtMost reducts.old n
        → length (entries_at reducts.old.tables leaf) < n
        → tally.new ≤ after_refusal reducts.old.tree n tally.old) }
    ensures flat { IfOk result (λ _. HasEqualMeets reducts.old.tree
        → tally.new ≤ after_add reducts.old.tree 1 tally.old) }
    ensures flat_refused { OnErr result (HasEqualMeets reducts.old.tree
        → tally.new ≤ after_refusal reducts.old.tree 1 tally.old) }
{
    insert_tuple(
        &reducts.tree,
        &mut reducts.tables,
        leaf,
        tuple,
        false,
        tally,
    )?;
    Ok(())
}

/// Deletes a tuple from a leaf's table, and what depends on it from the tables above, without marks: the
/// update ends at once. It needs no memory.
pub fn drop_leaf<L: Ledger>(reducts: &mut Reducts, leaf: usize, tuple: &[u64], tally: &mut Tally<L>)
    requires leaf { leaf < reducts.old.tree.leaves }
    requires there { 0 < count_of (entries_at reducts.old.tables leaf) tuple.now }
    requires bare { IsBare reducts.old.tables }
    ensures lost { HasLost reducts.old reducts.new leaf tuple.now }
    ensures counted { (n : ℕ) → HasAtMost reducts.old n → tally.new ≤ after_take reducts.old.tree n tally.old }
    ensures flat { HasEqualMeets reducts.old.tree → tally.new ≤ after_take reducts.old.tree 1 tally.old }
{
    find_and_remove(&reducts.tree, &mut reducts.tables, leaf, tuple, tally);
}

/// Marks a tuple of a leaf, and what depends on it, for a removal that [`finish_removal`] ends. It needs no
/// memory.
pub fn mark_removal<L: Ledger>(
    reducts: &mut Reducts,
    leaf: usize,
    tuple: &[u64],
    tally: &mut Tally<L>,
)
    requires leaf { leaf < reducts.old.tree.leaves }
    requires there { 0 < count_of (entries_at reducts.old.tables leaf) tuple.now }
    requires bare { IsBare reducts.old.tables }
    ensures marked { HasMarked reducts.old reducts.new leaf tuple.now }
    ensures counted { (n : ℕ) → HasAtMost reducts.old n → tally.new ≤ after_mark reducts.old.tree n tally.old }
    ensures few { HasEqualMeets reducts.old.tree → HaveFew reducts.new.tables }
    ensures flat { HasEqualMeets reducts.old.tree → tally.new ≤ after_mark reducts.old.tree 1 tally.old }
{
    touch_tuple(&reducts.tree, &mut reducts.tables, leaf, tuple, tally);
    touch_path(&reducts.tree, &mut reducts.tables, leaf, true, tally);
}

/// Marks one tuple more of a leaf for a removal of many, if no other node has marks. It needs no memory.
pub fn mark_tuple<L: Ledger>(
    reducts: &mut Reducts,
    leaf: usize,
    tuple: &[u64],
    tally: &mut Tally<L>,
)
    requires leaf { leaf < reducts.old.tree.leaves }
    requires there { 0 < count_of (entries_at reducts.old.tables leaf) tuple.now }
    requires only { HaveMarksOnlyAt reducts.old.tables leaf }
    ensures marked { HasMarkedMore reducts.old reducts.new leaf tuple.now }
    ensures counted { tally.new ≤ tally.old + 2 }
{
    touch_tuple(&reducts.tree, &mut reducts.tables, leaf, tuple, tally);
}

/// Marks what depends on the marked tuples of a leaf, however many, for a removal that [`finish_removal`]
/// ends. It needs no memory.
pub fn mark_above<L: Ledger>(reducts: &mut Reducts, leaf: usize, tally: &mut Tally<L>)
    requires leaf { leaf < reducts.old.tree.leaves }
    requires only { HaveMarksOnlyAt reducts.old.tables leaf }
    ensures marked { HasMarkedAbove reducts.old reducts.new leaf }
    ensures counted { (n : ℕ) → HasAtMost reducts.old n → tally.new ≤ after_mark_above reducts.old.tree n tally.old }
    ensures few { (n : ℕ) → HasEqualMeets reducts.old.tree → HaveMarksUpTo n reducts.old.tables
        → HaveMarksUpTo n reducts.new.tables }
    ensures flat { (n : ℕ) → HasEqualMeets reducts.old.tree → HaveMarksUpTo n reducts.old.tables
        → tally.new ≤ after_mark_above reducts.old.tree n tally.old }
{
    touch_path(&reducts.tree, &mut reducts.tables, leaf, true, tally);
}

/// Ends an insertion into a leaf: the marks are cleared. It needs no memory.
pub fn finish_insertion<L: Ledger>(reducts: &mut Reducts, leaf: usize, tally: &mut Tally<L>)
    requires leaf { leaf < reducts.old.tree.leaves }
    requires path { AreOnPath reducts.old.tree reducts.old.tables leaf }
    ensures kept { HasKept reducts.old reducts.new }
    ensures counted { (n : ℕ) → HasAtMost reducts.old n → tally.new ≤ after_keep reducts.old.tree n tally.old }
    ensures flat { (n : ℕ) → HaveMarksUpTo n reducts.old.tables → tally.new ≤ after_keep reducts.old.tree n tally.old }
{
    clear_path(&reducts.tree, &mut reducts.tables, leaf, tally);
}

/// Ends a removal from a leaf: its marked tuples are removed, and what depended on them. It needs no memory.
pub fn finish_removal<L: Ledger>(reducts: &mut Reducts, leaf: usize, tally: &mut Tally<L>)
    requires leaf { leaf < reducts.old.tree.leaves }
    requires path { AreOnPath reducts.old.tree reducts.old.tables leaf }
    ensures dropped { HasDropped reducts.old reducts.new leaf }
    ensures counted { (n : ℕ) → HasAtMost reducts.old n → tally.new ≤ after_drop reducts.old.tree n tally.old }
    ensures flat { (n : ℕ) → HasEqualMeets reducts.old.tree → HaveMarksUpTo n reducts.old.tables
        → tally.new ≤ after_drop reducts.old.tree n tally.old }
{
    take_marked(&reducts.tree, &mut reducts.tables, leaf, tally);
    clear_path(&reducts.tree, &mut reducts.tables, leaf, tally);
}

/// Undoes an insertion into a leaf, and ends the update: all tables hold what they held before it. It needs no
/// memory.
pub fn undo_insertion<L: Ledger>(reducts: &mut Reducts, leaf: usize, tally: &mut Tally<L>)
    requires leaf { leaf < reducts.old.tree.leaves }
    requires path { AreOnPath reducts.old.tree reducts.old.tables leaf }
    ensures dropped { HasDropped reducts.old reducts.new leaf }
    ensures back { (before : spec.Reducts) → IsReducts before → IsWithout reducts.old before leaf
        → SameTables before reducts.new }
    ensures counted { (n : ℕ) → HasAtMost reducts.old n → tally.new ≤ after_drop reducts.old.tree n tally.old }
    ensures flat { (n : ℕ) → HasEqualMeets reducts.old.tree → HaveMarksUpTo n reducts.old.tables
        → tally.new ≤ after_drop reducts.old.tree n tally.old }
{
    finish_removal(reducts, leaf, tally);
}

/// The law that the calls of an update of one leaf add up. With at most `n` tuples in each leaf, the one that
/// is inserted or deleted counted in, an insertion with its end, and a removal with its end, count at most 16
/// times the leaves and the variables for each of the `n`; an insertion that is undone, or refused, at most
/// twice that. So does an update without marks, at most that once. It does nothing.
pub fn counts_add_up(tree: &Tree)
    ensures { (variables : List ℕ) (n : ℕ) → HasVariables tree.now variables → 0 < n
        → AddUp tree.now (length variables) n }
{
    tree.is_small();
}
