//! Tuples are marked: those of a node that follow from the marked ones of its child.

ghost use Rattle.std.specs.Prelude.{◌≡◌, ℕ, ◌+◌, ◌*◌, ◌<◌, ◌≤◌, length};
ghost use Rattle.djq_index.specs.Tuple.{same, one_if};
ghost use Rattle.djq_index.specs.Entries.{count_of, group_size, marks, plain, group_of};
ghost use Rattle.djq_tree.specs.Flat.{HasEqualMeets};
ghost use Rattle.djq_tree.specs.Tree.{node_at};
ghost use Rattle.djq_tree.specs.declared.node.Node.TheVariants.{Trim};
ghost use Rattle.djq_reduct.specs.Tables.{entries_at, key_at, width_at};
ghost use Rattle.djq_reduct.specs.Reducts.{IsFamily};
ghost use Rattle.djq_propagate.specs.Touches.{IsTouched, IsStepUp, is_marked_by, reach_one, reach, cost_one};
ghost use Rattle.djq_propagate.specs.Walks.{IsParentOf};

use crate::tables::{part_of, read_at};
use djq_counters::Tally;
use djq_index::Table;
use djq_reduct::Cells;
use djq_tree::{Node, Tree};
use std::sync::ledger::Ledger;

/// Marks a tuple of the table of a node, if it is there.
pub(crate) fn touch_tuple<L: Ledger>(
    tree: &Tree,
    tables: &mut Vec<Table>,
    at: usize,
    tuple: &[u64],
    tally: &mut Tally<L>,
)
    requires family { IsFamily tree.now tables.old.items }
    requires within { at < length tree.now.nodes }
    ensures touched { IsTouched tree.now tables.old.items tables.new.items at (λ v. one_if (same tuple.now v)) }
    ensures counted { tally.new ≤ tally.old + 2 }
{
    let table = &mut tables[at];
    match table.find(tuple, tally) {
        Some(place) => {
            if table.marked(place) {
                return;
            }
            table.touch(place, tally);
        }
        None => {}
    }
}

/// Whether a trim's tuple is to be marked; if its child's tuples are to be removed, only if all are marked.
fn is_to_be_marked<L: Ledger>(
    tree: &Tree,
    tables: &Vec<Table>,
    at: usize,
    cells: &[u64],
    going: bool,
    tally: &mut Tally<L>,
) -> bool
    requires family { IsFamily tree.now tables.now.items }
    requires within { at < length tree.now.nodes }
    ensures going { result ≡ is_marked_by going (group_size (key_at tables.now.items at)
        (plain (entries_at tables.now.items at)) cells.now) }
    ensures counted { tally.new ≤ tally.old + 1 }
{
    if going {
        let table = &tables[at];
        match table.first(cells, tally) {
            Some(place) => table.marked(place),
            None => true,
        }
    } else {
        true
    }
}

/// Marks a tuple's projection at a trim.
fn touch_part<L: Ledger>(
    tree: &Tree,
    tables: &mut Vec<Table>,
    at: usize,
    up: usize,
    tuple: &[u64],
    going: bool,
    tally: &mut Tally<L>,
)
    requires family { IsFamily tree.now tables.old.items }
    requires within { at < length tree.now.nodes }
    requires wide { length tuple.now ≡ width_at tables.old.items at }
    requires under { IsParentOf tree.now up (Trim at) at }
    ensures touched { IsTouched tree.now tables.old.items tables.new.items up
        (λ v. reach_one (Trim at) going at tables.old.items tuple.now v) }
    ensures counted { tally.new ≤ tally.old + 3 }
{
    let mut part = Cells::new(0);
    part_of(tables, at, tuple, &mut part);
    let cells = part.as_slice();
    if is_to_be_marked(tree, tables, at, cells, going, tally) {
        touch_tuple(tree, tables, up, cells, tally);
    }
}

/// Marks those of the tuples of a meet that project to a tuple of its side.
fn touch_group<L: Ledger>(
    tree: &Tree,
    tables: &mut Vec<Table>,
    guard: usize,
    up: usize,
    cells: &[u64],
    tally: &mut Tally<L>,
)
    requires family { IsFamily tree.now tables.old.items }
    requires lower { guard < up }
    requires within { up < length tree.now.nodes }
    ensures touched { IsTouched tree.now tables.old.items tables.new.items up
        (λ v. count_of (group_of (key_at tables.old.items guard) (entries_at tables.old.items guard)
        cells.now) v) }
    ensures counted { tally.new ≤ tally.old + 1 + 3 * group_size (key_at tables.old.items guard)
        (entries_at tables.old.items guard) cells.now }
{
    let table = &tables[guard];
    let count = table.len();
    let mut next = table.first(cells, tally);
    let mut part = Cells::new(0);
    for done in 0..count {
        match next {
            Some(place) => {
                read_at(tables, guard, place, &mut part);
                touch_tuple(tree, tables, up, part.as_slice(), tally);
                next = tables[guard].next(place, tally);
            }
            None => {
                return;
            }
        }
    }
}

/// Marks what a marked tuple of a node reaches at the node above it.
fn touch_from<L: Ledger>(
    tree: &Tree,
    tables: &mut Vec<Table>,
    at: usize,
    up: usize,
    tuple: &[u64],
    going: bool,
    tally: &mut Tally<L>,
)
    requires step { IsStepUp tree.now tables.old.items at up }
    requires wide { length tuple.now ≡ width_at tables.old.items at }
    ensures touched { IsTouched tree.now tables.old.items tables.new.items up
        (λ v. reach_one (node_at tree.now.nodes up) going at tables.old.items tuple.now v) }
    ensures counted { tally.new ≤ tally.old + cost_one (node_at tree.now.nodes up) at tables.old.items tuple.now }
{
    match tree.node(up) {
        Node::Leaf { .. } => {}
        Node::Trim { .. } => touch_part(tree, tables, at, up, tuple, going, tally),
        Node::Meet { guard, side } => {
            let _side = side;
            if guard == at {
                touch_tuple(tree, tables, up, tuple, tally);
            } else {
                touch_group(tree, tables, guard, up, tuple, tally);
            }
        }
    }
}

/// Marks what the marked tuples of a node reach at the node above it.
pub(crate) fn touch_step<L: Ledger>(
    tree: &Tree,
    tables: &mut Vec<Table>,
    at: usize,
    up: usize,
    going: bool,
    tally: &mut Tally<L>,
)
    requires step { IsStepUp tree.now tables.old.items at up }
    ensures touched { IsTouched tree.now tables.old.items tables.new.items up
        (λ v. reach (node_at tree.now.nodes up) going at tables.old.items
        (marks (entries_at tables.old.items at)) v) }
    ensures counted { (n : ℕ) → ((i : ℕ) → length (entries_at tables.old.items i) ≤ n)
        → tally.new ≤ tally.old + 1 + 5 * n }
    ensures flat { (n : ℕ) → HasEqualMeets tree.now → length (marks (entries_at tables.old.items at)) ≤ n
        → tally.new ≤ tally.old + 1 + 5 * n }
{
    let table = &tables[at];
    let count = table.len();
    let mut next = table.first_marked(tally);
    let mut tuple = Cells::new(0);
    for done in 0..count {
        match next {
            Some(place) => {
                read_at(tables, at, place, &mut tuple);
                touch_from(tree, tables, at, up, tuple.as_slice(), going, tally);
                next = tables[at].next_marked(place, tally);
            }
            None => {
                return;
            }
        }
    }
}
