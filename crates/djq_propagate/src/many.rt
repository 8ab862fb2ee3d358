//! Many tuples are inserted into a leaf, one after another, or deleted from it.

ghost use Rattle.std.specs.Prelude.{◌≡◌, ℕ, ◌+◌, ◌*◌, ◌<◌, ◌≤◌, length, take, IfOk, OnErr};
ghost use Rattle.djq_tree.specs.Flat.{HasEqualMeets};
ghost use Rattle.djq_tree.specs.Labels.{label_at};
ghost use Rattle.djq_reduct.specs.Tables.{entries_at};
ghost use Rattle.djq_reduct.specs.Reducts.{IsReducts};
ghost use Rattle.djq_reduct.specs.Marks.{IsBare};
ghost use Rattle.djq_propagate.specs.Sizes.{size};
ghost use Rattle.djq_propagate.specs.Walks.{CameAs, Fewer};
ghost use Rattle.djq_propagate.specs.Updates.{HasAtMost, HasKept};
ghost use Rattle.djq_propagate.specs.Batches.{AreNew, AreThere, HaveCome, HaveGone};
ghost use Rattle.djq_index.specs.declared.table.TheConstants.{TUPLES};

use crate::insertion::insert_tuple;
use crate::removal::find_and_remove;
use djq_counters::Tally;
use djq_index::Table;
use djq_reduct::Cells;
use djq_tree::Tree;
use std::alloc::AllocError;
use std::sync::ledger::Ledger;

/// Inserts tuples into a leaf, and what follows from them into the tables above; all are marked or none.
/// If one is refused for want of memory, those before it are removed again.
pub(crate) fn insert_all<L: Ledger>(
    tree: &Tree,
    tables: &mut Vec<Table>,
    leaf: usize,
    tuples: &[Cells],
    marked: bool,
    tally: &mut Tally<L>,
) -> Result<(), AllocError>
    requires reducts { IsReducts (record { tree = tree.now; tables = tables.old.items }) }
    requires leaf { leaf < tree.now.leaves }
    requires fresh { AreNew (length (label_at tree.now.labels leaf)) (entries_at tables.old.items leaf) tuples.now }
    requires few { length (entries_at tables.old.items leaf) + length tuples.now ≤ TUPLES }
    requires bare { IsBare tables.old.items }
    ensures come { IfOk result (λ _. HaveCome tree.now tables.old.items tables.new.items leaf tuples.now) }
    ensures plain { IfOk result (λ _. CameAs marked tables.old.items tables.new.items) }
    ensures refused { OnErr result (HasKept (record { tree = tree.now; tables = tables.old.items })
        (record { tree = tree.now; tables = tables.new.items })) }
    ensures counted { IfOk result (λ _. tally.new + 4 * size tables.old.items ≤ tally.old + 4 * size tables.new.items) }
    ensures grows { IfOk result (λ _. HasEqualMeets tree.now → (j : ℕ) → length (entries_at tables.new.items j)
        ≤ length (entries_at tables.old.items j) + length tuples.now) }
    ensures bounded { OnErr result ((n : ℕ) → HasAtMost
        (record { tree = tree.now; tables = tables.old.items }) n
        → length (entries_at tables.old.items leaf) + length tuples.now ≤ n
        → tally.new + 9 * size tables.old.items ≤ tally.old + 9 * (n * length tree.now.nodes)) }
{
    for i in 0..tuples.len() {
        match insert_tuple(tree, tables, leaf, tuples[i].as_slice(), marked, tally) {
            Ok(()) => {}
            Err(error) => {
                remove_all(tree, tables, leaf, tuples, i, tally);
                return Err(error);
            }
        }
    }
    Ok(())
}

/// Removes the first `count` of some tuples from a leaf, and what depends on them from the tables above.
pub(crate) fn remove_all<L: Ledger>(
    tree: &Tree,
    tables: &mut Vec<Table>,
    leaf: usize,
    tuples: &[Cells],
    count: usize,
    tally: &mut Tally<L>,
)
    requires reducts { IsReducts (record { tree = tree.now; tables = tables.old.items }) }
    requires leaf { leaf < tree.now.leaves }
    requires count { count ≤ length tuples.now }
    requires there { AreThere (entries_at tables.old.items leaf) (take count tuples.now) }
    ensures gone { HaveGone tree.now tables.old.items tables.new.items leaf (take count tuples.now) }
    ensures fewer { Fewer tables.old.items tables.new.items }
    ensures counted { tally.new + 5 * size tables.new.items ≤ tally.old + 5 * size tables.old.items }
{
    for i in 0..count {
        find_and_remove(tree, tables, leaf, tuples[i].as_slice(), tally);
    }
}
