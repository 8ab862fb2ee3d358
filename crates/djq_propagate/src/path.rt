//! The path from a leaf to the root: marks are made and cleared along it.

ghost use Rattle.std.specs.Prelude.{◌≡◌, ℕ, ◌+◌, ◌*◌, ◌<◌, ◌≤◌, false, true, cond, length};
ghost use Rattle.djq_index.specs.Entries.{marks, unmarked};
ghost use Rattle.djq_index.specs.Tuple.{one_if};
ghost use Rattle.djq_tree.specs.Flat.{HasEqualMeets};
ghost use Rattle.djq_tree.specs.Tree.{node_at, has_child};
ghost use Rattle.djq_reduct.specs.Tables.{entries_at};
ghost use Rattle.djq_reduct.specs.Reducts.{IsFamily, IsReducts};
ghost use Rattle.djq_propagate.specs.Sizes.{size};
ghost use Rattle.djq_propagate.specs.Touches.{CanWalk, HaveMarksUpTo, IsTouched, IsTouchedUp, IsWalked, reach};
ghost use Rattle.djq_propagate.specs.Walks.{ChangedOneTable};
ghost use Rattle.djq_propagate.specs.Updates.{HasCleared, HasTaken, steps};

use crate::removal::remove_tuple;
use crate::tables::read_at;
use crate::touch::touch_step;
use djq_counters::Tally;
use djq_index::Table;
use djq_reduct::Cells;
use djq_tree::Tree;
use std::sync::ledger::Ledger;

/// If a node is above the last one of a path: marks what follows there from the marks below, and
/// continues. Before the second stage that is for a removal alone, and then what depends on them.
fn touch_above<L: Ledger>(
    tree: &Tree,
    tables: &mut Vec<Table>,
    at: usize,
    up: usize,
    removal: bool,
    tally: &mut Tally<L>,
) -> usize
    requires family { IsFamily tree.now tables.old.items }
    requires within { up < length tree.now.nodes }
    ensures next { result ≡ cond (has_child (node_at tree.now.nodes up) at) up at }
    ensures above { has_child (node_at tree.now.nodes up) at ≡ true → tree.now.second_stage ≤ up
        → IsTouched tree.now tables.old.items tables.new.items up
        (λ v. reach (node_at tree.now.nodes up) false at tables.old.items
        (marks (entries_at tables.old.items at)) v) }
    ensures below { has_child (node_at tree.now.nodes up) at ≡ true → up < tree.now.second_stage
        → removal ≡ true → IsTouched tree.now tables.old.items tables.new.items up
        (λ v. reach (node_at tree.now.nodes up) true at tables.old.items
        (marks (entries_at tables.old.items at)) v) }
    ensures idle { up < tree.now.second_stage → removal ≡ false → tables.new.items ≡ tables.old.items }
    ensures apart { has_child (node_at tree.now.nodes up) at ≡ false → tables.new.items ≡ tables.old.items }
    ensures counted { (n : ℕ) → ((i : ℕ) → length (entries_at tables.old.items i) ≤ n)
        → tally.new ≤ tally.old + one_if (has_child (node_at tree.now.nodes up) at) * (1 + 5 * n) }
    ensures flat { (n : ℕ) → HasEqualMeets tree.now → length (marks (entries_at tables.old.items at)) ≤ n
        → tally.new ≤ tally.old + one_if (has_child (node_at tree.now.nodes up) at) * (1 + 5 * n) }
{
    if tree.node(up).has_child(at) {
        if up >= tree.second_stage() {
            touch_step(tree, tables, at, up, false, tally);
            return up;
        }
        if removal {
            touch_step(tree, tables, at, up, true, tally);
            return up;
        }
        return up;
    }
    at
}

/// Marks what follows at the nodes above a leaf from its marked tuples.
pub(crate) fn touch_path<L: Ledger>(
    tree: &Tree,
    tables: &mut Vec<Table>,
    leaf: usize,
    removal: bool,
    tally: &mut Tally<L>,
)
    requires family { IsFamily tree.now tables.old.items }
    requires leaf { leaf < tree.now.leaves }
    requires can { CanWalk tree.now tables.old.items leaf removal }
    ensures touched { IsTouchedUp tree.now tables.old.items tables.new.items leaf }
    ensures walked { IsWalked tree.now tables.old.items tables.new.items leaf removal (length tree.now.nodes) }
    ensures counted { (n : ℕ) → ((i : ℕ) → length (entries_at tables.old.items i) ≤ n)
        → tally.new ≤ tally.old + steps tree.now.nodes leaf (length tree.now.nodes) * (1 + 5 * n) }
    ensures few { (n : ℕ) → HasEqualMeets tree.now → HaveMarksUpTo n tables.old.items
        → HaveMarksUpTo n tables.new.items }
    ensures flat { (n : ℕ) → HasEqualMeets tree.now → HaveMarksUpTo n tables.old.items
        → tally.new ≤ tally.old + steps tree.now.nodes leaf (length tree.now.nodes) * (1 + 5 * n) }
{
    let mut at = leaf;
    for up in 0..tree.len() {
        at = touch_above(tree, tables, at, up, removal, tally);
    }
}

/// If a node is above the last one of a path: clears its marks, and continues.
fn clear_above<L: Ledger>(
    tree: &Tree,
    tables: &mut Vec<Table>,
    at: usize,
    up: usize,
    tally: &mut Tally<L>,
) -> usize
    requires family { IsFamily tree.now tables.old.items }
    requires within { up < length tree.now.nodes }
    ensures next { result ≡ cond (has_child (node_at tree.now.nodes up) at) up at }
    ensures cleared { has_child (node_at tree.now.nodes up) at ≡ true
        → entries_at tables.new.items up ≡ unmarked (entries_at tables.old.items up) }
    ensures changed { has_child (node_at tree.now.nodes up) at ≡ true → ChangedOneTable tables.old.items tables.new.items up }
    ensures apart { has_child (node_at tree.now.nodes up) at ≡ false → tables.new.items ≡ tables.old.items }
    ensures counted { (n : ℕ) → ((i : ℕ) → length (entries_at tables.old.items i) ≤ n)
        → tally.new ≤ tally.old + one_if (has_child (node_at tree.now.nodes up) at) * (1 + n) }
    ensures flat { (n : ℕ) → HaveMarksUpTo n tables.old.items → tally.new ≤ tally.old + one_if
        (has_child (node_at tree.now.nodes up) at) * (1 + n) }
{
    if tree.node(up).has_child(at) {
        tables[up].clear_marks(tally);
        return up;
    }
    at
}

/// Clears the marks of a leaf and of the nodes above it.
pub(crate) fn clear_path<L: Ledger>(
    tree: &Tree,
    tables: &mut Vec<Table>,
    leaf: usize,
    tally: &mut Tally<L>,
)
    requires family { IsFamily tree.now tables.old.items }
    requires leaf { leaf < tree.now.leaves }
    ensures cleared { HasCleared tree.now tables.old.items tables.new.items leaf (length tree.now.nodes) }
    ensures counted { (n : ℕ) → ((i : ℕ) → length (entries_at tables.old.items i) ≤ n)
        → tally.new ≤ tally.old + (1 + steps tree.now.nodes leaf (length tree.now.nodes))
        * (1 + n) }
    ensures flat { (n : ℕ) → HaveMarksUpTo n tables.old.items → tally.new ≤ tally.old
        + (1 + steps tree.now.nodes leaf (length tree.now.nodes)) * (1 + n) }
{
    tables[leaf].clear_marks(tally);
    let mut at = leaf;
    for up in 0..tree.len() {
        at = clear_above(tree, tables, at, up, tally);
    }
}

/// Removes the marked tuples of a leaf, and what depends on them from the tables above.
pub(crate) fn take_marked<L: Ledger>(
    tree: &Tree,
    tables: &mut Vec<Table>,
    leaf: usize,
    tally: &mut Tally<L>,
)
    requires reducts { IsReducts (record { tree = tree.now; tables = tables.old.items }) }
    requires leaf { leaf < tree.now.leaves }
    ensures taken { HasTaken (record { tree = tree.now; tables = tables.old.items })
        (record { tree = tree.now; tables = tables.new.items }) leaf }
    ensures counted { tally.new + 5 * size tables.new.items ≤ tally.old + 1 + 5 * size tables.old.items }
    ensures flat { HasEqualMeets tree.now → size tables.old.items ≤ size tables.new.items
        + length (marks (entries_at tables.old.items leaf)) * (1 + steps tree.now.nodes leaf (length tree.now.nodes)) }
{
    let count = tables[leaf].len();
    let mut tuple = Cells::new(0);
    for _done in 0..count {
        match tables[leaf].first_marked(tally) {
            Some(place) => {
                read_at(tables, leaf, place, &mut tuple);
                remove_tuple(tree, tables, leaf, place, tuple.as_slice(), tally);
            }
            None => {
                return;
            }
        }
    }
}
