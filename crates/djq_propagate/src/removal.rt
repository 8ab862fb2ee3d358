//! A tuple is removed from a node, and what depends on it from the nodes above. This needs no memory.

ghost use Rattle.std.specs.Prelude.{◌≡◌, ◌+◌, ◌*◌, ◌<◌, ◌≤◌, length, take};
ghost use Rattle.djq_index.specs.Entries.{count_of, group_of};
ghost use Rattle.djq_index.specs.Tuple.{pick};
ghost use Rattle.djq_index.specs.Table.{IsAt};
ghost use Rattle.djq_tree.specs.declared.node.Node.TheVariants.{Trim, Meet};
ghost use Rattle.djq_reduct.specs.Tables.{entries_at, key_at, width_at};
ghost use Rattle.djq_propagate.specs.Sizes.{size};
ghost use Rattle.djq_propagate.specs.Walks.{Ready, RemovedUpwards, Losing, RemovedAbove, Fewer};
ghost use Rattle.djq_propagate.specs.Walks.{IsParentOf, IsEmptied, CoversAll};

use crate::tables::{column_of, find_at, part_of, read_at, remove_at};
use djq_counters::Tally;
use djq_index::{Place, Table};
use djq_reduct::Cells;
use djq_tree::{Node, Tree};
use std::sync::ledger::Ledger;

/// Removes a tuple from the table of a node, at its place, and what depends on it alone from the tables above.
#[cycle(remove_tuple)]
pub(crate) fn remove_tuple<L: Ledger>(
    tree: &Tree,
    tables: &mut Vec<Table>,
    at: usize,
    place: Place,
    tuple: &[u64],
    tally: &mut Tally<L>,
)
    requires ready { Ready tree.now tables.old.items at }
    requires lies { IsAt (entries_at tables.old.items at) place tuple.now }
    ensures died { RemovedUpwards tree.now tables.old.items tables.new.items at tuple.now }
    ensures fewer { Fewer tables.old.items tables.new.items }
    ensures counted { tally.new + 2 + 5 * size tables.new.items ≤ tally.old + 5 * size tables.old.items }
{
    remove_at(tables, at, place, tally);
    remove_above(tree, tables, at, tuple, tally);
}

/// The same for a tuple that its node's table has lost already.
#[cycle(remove_tuple)]
fn remove_above<L: Ledger>(
    tree: &Tree,
    tables: &mut Vec<Table>,
    at: usize,
    tuple: &[u64],
    tally: &mut Tally<L>,
)
    requires losing { Losing tree.now tables.old.items at tuple.now }
    requires wide { length tuple.now ≡ width_at tables.old.items at }
    ensures { RemovedAbove tree.now tables.old.items tables.new.items at tally.old tally.new }
{
    match tree.parent(at) {
        None => {}
        Some(up) => match tree.node(up) {
            Node::Leaf { .. } => {}
            Node::Trim { .. } => remove_above_trim(tree, tables, at, up, tuple, tally),
            Node::Meet { guard, side } => {
                if guard == at {
                    remove_above_guard(tree, tables, at, side, up, tuple, tally);
                } else {
                    remove_above_side(tree, tables, at, guard, up, tuple, tally);
                }
            }
        },
    }
}

/// In a trim the projection of a removed tuple loses a support, and is removed with the last one. Most projections
/// have one cell or none, and need no room.
#[cycle(remove_tuple)]
fn remove_above_trim<L: Ledger>(
    tree: &Tree,
    tables: &mut Vec<Table>,
    at: usize,
    up: usize,
    tuple: &[u64],
    tally: &mut Tally<L>,
)
    requires losing { Losing tree.now tables.old.items at tuple.now }
    requires wide { length tuple.now ≡ width_at tables.old.items at }
    requires under { IsParentOf tree.now up (Trim at) at }
    ensures { RemovedAbove tree.now tables.old.items tables.new.items at tally.old tally.new }
{
    match column_of(tables, at) {
        Some(column) => remove_above_part(tree, tables, at, up, tuple, &[tuple[column]], tally),
        None => {
            if tables[at].key().is_empty() {
                remove_above_part(tree, tables, at, up, tuple, &[], tally);
            } else {
                remove_above_wide(tree, tables, at, up, tuple, tally);
            }
        }
    }
}

/// The same for a projection to any columns.
#[cycle(remove_tuple)]
#[inline(never)]
fn remove_above_wide<L: Ledger>(
    tree: &Tree,
    tables: &mut Vec<Table>,
    at: usize,
    up: usize,
    tuple: &[u64],
    tally: &mut Tally<L>,
)
    requires losing { Losing tree.now tables.old.items at tuple.now }
    requires wide { length tuple.now ≡ width_at tables.old.items at }
    requires under { IsParentOf tree.now up (Trim at) at }
    ensures { RemovedAbove tree.now tables.old.items tables.new.items at tally.old tally.new }
{
    let mut part = Cells::new(0);
    part_of(tables, at, tuple, &mut part);
    remove_above_part(tree, tables, at, up, tuple, part.as_slice(), tally);
}

/// The same for a tuple whose projection is known.
#[cycle(remove_tuple)]
#[inline(always)]
fn remove_above_part<L: Ledger>(
    tree: &Tree,
    tables: &mut Vec<Table>,
    at: usize,
    up: usize,
    tuple: &[u64],
    cells: &[u64],
    tally: &mut Tally<L>,
)
    requires losing { Losing tree.now tables.old.items at tuple.now }
    requires wide { length tuple.now ≡ width_at tables.old.items at }
    requires under { IsParentOf tree.now up (Trim at) at }
    requires part { cells.now ≡ pick (key_at tables.old.items at) tuple.now }
    ensures { RemovedAbove tree.now tables.old.items tables.new.items at tally.old tally.new }
{
    match find_at(tables, up, cells, tally) {
        Some(place) => {
            if tables[up].supports(place) > 1 {
                tables[up].lower(place, tally);
            } else {
                remove_tuple(tree, tables, up, place, cells, tally);
            }
        }
        None => {}
    }
}

/// A removed tuple of a meet's guard is removed from the meet.
#[cycle(remove_tuple)]
fn remove_above_guard<L: Ledger>(
    tree: &Tree,
    tables: &mut Vec<Table>,
    at: usize,
    side: usize,
    up: usize,
    tuple: &[u64],
    tally: &mut Tally<L>,
)
    requires losing { Losing tree.now tables.old.items at tuple.now }
    requires under { IsParentOf tree.now up (Meet at side) at }
    ensures { RemovedAbove tree.now tables.old.items tables.new.items at tally.old tally.new }
{
    match find_at(tables, up, tuple, tally) {
        Some(place) => remove_tuple(tree, tables, up, place, tuple, tally),
        None => {}
    }
}

/// With a removed tuple of a meet's side the guard's tuples that project to it are removed from the meet.
#[cycle(remove_tuple)]
fn remove_above_side<L: Ledger>(
    tree: &Tree,
    tables: &mut Vec<Table>,
    at: usize,
    guard: usize,
    up: usize,
    tuple: &[u64],
    tally: &mut Tally<L>,
)
    requires losing { Losing tree.now tables.old.items at tuple.now }
    requires under { IsParentOf tree.now up (Meet guard at) at }
    ensures { RemovedAbove tree.now tables.old.items tables.new.items at tally.old tally.new }
{
    let count = tables[guard].len();
    remove_group_from_meet(tree, tables, guard, up, tuple, count, tally);
}

/// Removes the first `count` tuples of a group of a meet's guard from the meet.
#[cycle(remove_tuple)]
pub(crate) fn remove_group_from_meet<L: Ledger>(
    tree: &Tree,
    tables: &mut Vec<Table>,
    guard: usize,
    up: usize,
    cells: &[u64],
    count: usize,
    tally: &mut Tally<L>,
)
    requires ready { Ready tree.now tables.old.items up }
    requires lower { guard < up }
    requires full { CoversAll (entries_at tables.old.items up)
        (take count (group_of (key_at tables.old.items guard) (entries_at tables.old.items guard)
        cells.now)) }
    ensures emptied { IsEmptied tree.now tables.old.items tables.new.items up
        (take count (group_of (key_at tables.old.items guard) (entries_at tables.old.items guard)
        cells.now)) }
    ensures fewer { Fewer tables.old.items tables.new.items }
    ensures counted { tally.new + 5 * size tables.new.items ≤ tally.old + 1 + 5 * size tables.old.items }
{
    let mut part = Cells::new(0);
    let mut next = tables[guard].first(cells, tally);
    for _done in 0..count {
        match next {
            Some(place) => {
                read_at(tables, guard, place, &mut part);
                find_and_remove(tree, tables, up, part.as_slice(), tally);
                next = tables[guard].next(place, tally);
            }
            None => {
                return;
            }
        }
    }
}

/// Removes a tuple from the table of a node, as `remove_tuple` does.
#[cycle(remove_tuple)]
pub(crate) fn find_and_remove<L: Ledger>(
    tree: &Tree,
    tables: &mut Vec<Table>,
    at: usize,
    tuple: &[u64],
    tally: &mut Tally<L>,
)
    requires ready { Ready tree.now tables.old.items at }
    requires there { 0 < count_of (entries_at tables.old.items at) tuple.now }
    ensures died { RemovedUpwards tree.now tables.old.items tables.new.items at tuple.now }
    ensures fewer { Fewer tables.old.items tables.new.items }
    ensures counted { tally.new + 1 + 5 * size tables.new.items ≤ tally.old + 5 * size tables.old.items }
{
    match find_at(tables, at, tuple, tally) {
        Some(place) => remove_tuple(tree, tables, at, place, tuple, tally),
        None => {}
    }
}
