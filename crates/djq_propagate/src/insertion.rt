//! A tuple is inserted into a node, and what follows from it into the nodes above.

ghost use Rattle.std.specs.Prelude.{◌≡◌, ℕ, ◌+◌, ◌-◌, ◌*◌, ◌<◌, ◌≤◌, false, length, IfOk, OnErr};
ghost use Rattle.djq_index.specs.Entries.{count_of};
ghost use Rattle.djq_index.specs.Tuple.{pick};
ghost use Rattle.djq_tree.specs.declared.node.Node.TheVariants.{Trim, Meet};
ghost use Rattle.djq_tree.specs.Flat.{HasEqualMeets};
ghost use Rattle.djq_reduct.specs.Tables.{entries_at, key_at, width_at};
ghost use Rattle.djq_reduct.specs.Marks.{IsBare};
ghost use Rattle.djq_propagate.specs.Sizes.{size, AreAtMost};
ghost use Rattle.djq_propagate.specs.Walks.{Ready, InsertedUpwards, Refused, Gaining, InsertedAbove};
ghost use Rattle.djq_propagate.specs.Walks.{CameAs, IsParentOf};
ghost use Rattle.djq_index.specs.declared.table.TheConstants.{TUPLES};

use crate::removal::remove_group_from_meet;
use crate::tables::{column_of, find_at, find_part, insert_at, part_of, read_at, remove_at};
use djq_counters::Tally;
use djq_index::Table;
use djq_reduct::Cells;
use djq_tree::{Node, Tree};
use std::alloc::AllocError;
use std::sync::ledger::Ledger;

/// Inserts a tuple into the table of a node, and what follows from it into the tables above; all are marked or
/// none. Out of memory, all tables hold the same tuples as before.
#[cycle(insert_tuple)]
pub(crate) fn insert_tuple<L: Ledger>(
    tree: &Tree,
    tables: &mut Vec<Table>,
    at: usize,
    tuple: &[u64],
    marked: bool,
    tally: &mut Tally<L>,
) -> Result<(), AllocError>
    requires ready { Ready tree.now tables.old.items at }
    requires absent { count_of (entries_at tables.old.items at) tuple.now ≡ 0 }
    requires wide { length tuple.now ≡ width_at tables.old.items at }
    requires few { length (entries_at tables.old.items at) < TUPLES }
    requires bare { marked ≡ false → IsBare tables.old.items }
    ensures ok { IfOk result (λ _. InsertedUpwards tree.now tables.old.items tables.new.items at tuple.now) }
    ensures refused { OnErr result (Refused tree.now tables.old.items tables.new.items at) }
    ensures plain { CameAs marked tables.old.items tables.new.items }
    ensures counted { IfOk result (λ _. tally.new + 1 + 4 * size tables.old.items ≤ tally.old + 4
        * size tables.new.items) }
    ensures bounded { OnErr result ((n : ℕ) → AreAtMost tables.old.items n
        → length (entries_at tables.old.items at) < n → tally.new + 9 * size tables.old.items
        ≤ tally.old + 9 * (n * length tree.now.nodes)) }
    ensures flat { OnErr result (HasEqualMeets tree.now → tally.new ≤ tally.old + 5 * (length tree.now.nodes - at)) }
{
    let place = insert_at(tables, at, tuple, marked, tally)?;
    match insert_above(tree, tables, at, tuple, marked, tally) {
        Ok(()) => Ok(()),
        Err(error) => {
            remove_at(tables, at, place, tally);
            Err(error)
        }
    }
}

/// The same for a tuple that is already in its node's table.
#[cycle(insert_tuple)]
fn insert_above<L: Ledger>(
    tree: &Tree,
    tables: &mut Vec<Table>,
    at: usize,
    tuple: &[u64],
    marked: bool,
    tally: &mut Tally<L>,
) -> Result<(), AllocError>
    requires gaining { Gaining tree.now tables.old.items at tuple.now }
    requires wide { length tuple.now ≡ width_at tables.old.items at }
    requires bare { marked ≡ false → IsBare tables.old.items }
    ensures { InsertedAbove tree.now tables.old.items tables.new.items at marked result tally.old tally.new }
{
    match tree.parent(at) {
        None => Ok(()),
        Some(up) => match tree.node(up) {
            Node::Leaf { .. } => Ok(()),
            Node::Trim { .. } => insert_above_trim(tree, tables, at, up, tuple, marked, tally),
            Node::Meet { guard, side } => {
                if guard == at {
                    insert_above_guard(tree, tables, at, side, up, tuple, marked, tally)
                } else {
                    insert_above_side(tree, tables, at, guard, up, tuple, marked, tally)
                }
            }
        },
    }
}

/// To a trim a tuple brings its projection, or one support more of it. Most projections have one cell or none,
/// and need no room.
#[cycle(insert_tuple)]
fn insert_above_trim<L: Ledger>(
    tree: &Tree,
    tables: &mut Vec<Table>,
    at: usize,
    up: usize,
    tuple: &[u64],
    marked: bool,
    tally: &mut Tally<L>,
) -> Result<(), AllocError>
    requires gaining { Gaining tree.now tables.old.items at tuple.now }
    requires wide { length tuple.now ≡ width_at tables.old.items at }
    requires under { IsParentOf tree.now up (Trim at) at }
    requires bare { marked ≡ false → IsBare tables.old.items }
    ensures { InsertedAbove tree.now tables.old.items tables.new.items at marked result tally.old tally.new }
{
    match column_of(tables, at) {
        Some(column) => {
            insert_above_part(tree, tables, at, up, tuple, &[tuple[column]], marked, tally)
        }
        None => {
            if tables[at].key().is_empty() {
                insert_above_part(tree, tables, at, up, tuple, &[], marked, tally)
            } else {
                insert_above_wide(tree, tables, at, up, tuple, marked, tally)
            }
        }
    }
}

/// The same for a projection to any columns.
#[cycle(insert_tuple)]
#[inline(never)]
fn insert_above_wide<L: Ledger>(
    tree: &Tree,
    tables: &mut Vec<Table>,
    at: usize,
    up: usize,
    tuple: &[u64],
    marked: bool,
    tally: &mut Tally<L>,
) -> Result<(), AllocError>
    requires gaining { Gaining tree.now tables.old.items at tuple.now }
    requires wide { length tuple.now ≡ width_at tables.old.items at }
    requires under { IsParentOf tree.now up (Trim at) at }
    requires bare { marked ≡ false → IsBare tables.old.items }
    ensures { InsertedAbove tree.now tables.old.items tables.new.items at marked result tally.old tally.new }
{
    let mut part = Cells::new(0);
    part_of(tables, at, tuple, &mut part);
    insert_above_part(tree, tables, at, up, tuple, part.as_slice(), marked, tally)
}

/// The same for a tuple whose projection is known.
#[cycle(insert_tuple)]
#[inline(always)]
fn insert_above_part<L: Ledger>(
    tree: &Tree,
    tables: &mut Vec<Table>,
    at: usize,
    up: usize,
    tuple: &[u64],
    cells: &[u64],
    marked: bool,
    tally: &mut Tally<L>,
) -> Result<(), AllocError>
    requires gaining { Gaining tree.now tables.old.items at tuple.now }
    requires wide { length tuple.now ≡ width_at tables.old.items at }
    requires under { IsParentOf tree.now up (Trim at) at }
    requires part { cells.now ≡ pick (key_at tables.old.items at) tuple.now }
    requires bare { marked ≡ false → IsBare tables.old.items }
    ensures { InsertedAbove tree.now tables.old.items tables.new.items at marked result tally.old tally.new }
{
    tables[at].is_small();
    match find_at(tables, up, cells, tally) {
        Some(place) => {
            tables[up].raise(place, tally);
            Ok(())
        }
        None => insert_tuple(tree, tables, up, cells, marked, tally),
    }
}

/// A tuple of a meet's guard is inserted into the meet, if the side has its projection.
#[cycle(insert_tuple)]
fn insert_above_guard<L: Ledger>(
    tree: &Tree,
    tables: &mut Vec<Table>,
    at: usize,
    side: usize,
    up: usize,
    tuple: &[u64],
    marked: bool,
    tally: &mut Tally<L>,
) -> Result<(), AllocError>
    requires gaining { Gaining tree.now tables.old.items at tuple.now }
    requires wide { length tuple.now ≡ width_at tables.old.items at }
    requires under { IsParentOf tree.now up (Meet at side) at }
    requires bare { marked ≡ false → IsBare tables.old.items }
    ensures { InsertedAbove tree.now tables.old.items tables.new.items at marked result tally.old tally.new }
{
    tables[at].is_small();
    match find_part(tables, at, side, tuple, tally) {
        Some(_place) => insert_tuple(tree, tables, up, tuple, marked, tally),
        None => Ok(()),
    }
}

/// To a meet a tuple of its side brings the guard's tuples that project to it.
#[cycle(insert_tuple)]
fn insert_above_side<L: Ledger>(
    tree: &Tree,
    tables: &mut Vec<Table>,
    at: usize,
    guard: usize,
    up: usize,
    tuple: &[u64],
    marked: bool,
    tally: &mut Tally<L>,
) -> Result<(), AllocError>
    requires gaining { Gaining tree.now tables.old.items at tuple.now }
    requires under { IsParentOf tree.now up (Meet guard at) at }
    requires bare { marked ≡ false → IsBare tables.old.items }
    ensures { InsertedAbove tree.now tables.old.items tables.new.items at marked result tally.old tally.new }
{
    let table = &tables[guard];
    table.is_small();
    let count = table.len();
    let mut next = table.first(tuple, tally);
    let mut part = Cells::new(0);
    for done in 0..count {
        match next {
            Some(place) => {
                read_at(tables, guard, place, &mut part);
                match insert_tuple(tree, tables, up, part.as_slice(), marked, tally) {
                    Ok(()) => {}
                    Err(error) => {
                        remove_group_from_meet(tree, tables, guard, up, tuple, done, tally);
                        return Err(error);
                    }
                }
                next = tables[guard].next(place, tally);
            }
            None => {
                return Ok(());
            }
        }
    }
    Ok(())
}
