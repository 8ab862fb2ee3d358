//! Calls on the table of one node, among the tables of all.

ghost use Rattle.std.specs.Prelude.{◌≡◌, ℕ, ◌+◌, ◌<◌, ◌≤◌, false, List, [], ◌∷◌, length};
ghost use Rattle.std.specs.Prelude.{IfOk, IfSome, OnErr, MatchOption};
ghost use Rattle.djq_index.specs.Tuple.{pick};
ghost use Rattle.djq_index.specs.Entries.{count_of, marks};
ghost use Rattle.djq_index.specs.Table.{IsAt, IsOccupied};
ghost use Rattle.djq_index.specs.Changes.{InsertedAs, Removed};
ghost use Rattle.djq_reduct.specs.Tables.{entries_at, key_at, width_at};
ghost use Rattle.djq_propagate.specs.Walks.{ChangedOneTable};
ghost use Rattle.djq_index.specs.declared.table.TheConstants.{TUPLES};
ghost use Rattle.djq_index.specs.declared.cells.TheConstants.{CELLS};

use djq_counters::Tally;
use djq_index::{Place, Table};
use djq_reduct::Cells;
use std::alloc::AllocError;
use std::sync::ledger::Ledger;

/// The place of a tuple in the table of a node.
pub(crate) fn find_at<L: Ledger>(
    tables: &Vec<Table>,
    at: usize,
    tuple: &[u64],
    tally: &mut Tally<L>,
) -> Option<Place>
    requires { at < length tables.now.items }
    ensures found { MatchOption result (count_of (entries_at tables.now.items at) tuple.now ≡ 0)
        (λ p. IsAt (entries_at tables.now.items at) p tuple.now) }
    ensures counted { tally.new ≡ tally.old + 1 }
{
    tables[at].find(tuple, tally)
}

/// Reads the tuple at a place of the table of a node.
pub(crate) fn read_at(tables: &Vec<Table>, at: usize, place: Place, cells: &mut Cells)
    requires within { at < length tables.now.items }
    requires narrow { width_at tables.now.items at ≤ CELLS }
    requires live { IsOccupied (entries_at tables.now.items at) place }
    ensures tuple { (u : List ℕ) → IsAt (entries_at tables.now.items at) place u → cells.new ≡ u }
    ensures wide { length cells.new ≡ width_at tables.now.items at }
{
    let table = &tables[at];
    table.laws();
    cells.take_all(table.tuple(place));
}

/// Reads the cells of a tuple at the columns of a node's key.
pub(crate) fn part_of(tables: &Vec<Table>, at: usize, tuple: &[u64], cells: &mut Cells)
    requires within { at < length tables.now.items }
    requires narrow { width_at tables.now.items at ≤ CELLS }
    requires few { length (key_at tables.now.items at) ≤ CELLS }
    requires wide { length tuple.now ≡ width_at tables.now.items at }
    ensures { cells.new ≡ pick (key_at tables.now.items at) tuple.now }
{
    let table = &tables[at];
    table.laws();
    cells.take_part(tuple, table.key());
}

/// The column of a node's key, if it has one alone.
pub(crate) fn column_of(tables: &Vec<Table>, at: usize) -> Option<usize>
    requires { at < length tables.now.items }
    ensures key { IfSome result (λ column. key_at tables.now.items at ≡ column ∷ []) }
    ensures within { IfSome result (λ column. column < width_at tables.now.items at) }
{
    let table = &tables[at];
    table.laws();
    match table.key() {
        [column] => Some(*column),
        _ => None,
    }
}

/// The place in the table of another node of the part of a tuple at the columns of a node's key. Most keys have
/// one column, and need no room for their cells.
pub(crate) fn find_part<L: Ledger>(
    tables: &Vec<Table>,
    at: usize,
    to: usize,
    tuple: &[u64],
    tally: &mut Tally<L>,
) -> Option<Place>
    requires within { at < length tables.now.items }
    requires there { to < length tables.now.items }
    requires narrow { width_at tables.now.items at ≤ CELLS }
    requires few { length (key_at tables.now.items at) ≤ CELLS }
    requires wide { length tuple.now ≡ width_at tables.now.items at }
    ensures found { MatchOption result (count_of (entries_at tables.now.items to)
        (pick (key_at tables.now.items at) tuple.now) ≡ 0)
        (λ p. IsAt (entries_at tables.now.items to) p (pick (key_at tables.now.items at)
        tuple.now)) }
    ensures counted { tally.new ≡ tally.old + 1 }
{
    match column_of(tables, at) {
        Some(column) => find_at(tables, to, &[tuple[column]], tally),
        None => find_wide(tables, at, to, tuple, tally),
    }
}

/// The same for a key of any columns.
#[inline(never)]
fn find_wide<L: Ledger>(
    tables: &Vec<Table>,
    at: usize,
    to: usize,
    tuple: &[u64],
    tally: &mut Tally<L>,
) -> Option<Place>
    requires within { at < length tables.now.items }
    requires there { to < length tables.now.items }
    requires narrow { width_at tables.now.items at ≤ CELLS }
    requires few { length (key_at tables.now.items at) ≤ CELLS }
    requires wide { length tuple.now ≡ width_at tables.now.items at }
    ensures found { MatchOption result (count_of (entries_at tables.now.items to)
        (pick (key_at tables.now.items at) tuple.now) ≡ 0)
        (λ p. IsAt (entries_at tables.now.items to) p (pick (key_at tables.now.items at)
        tuple.now)) }
    ensures counted { tally.new ≡ tally.old + 1 }
{
    let mut part = Cells::new(0);
    part_of(tables, at, tuple, &mut part);
    find_at(tables, to, part.as_slice(), tally)
}

/// Puts a tuple into the table of a node, marked or not.
pub(crate) fn insert_at<L: Ledger>(
    tables: &mut Vec<Table>,
    at: usize,
    tuple: &[u64],
    marked: bool,
    tally: &mut Tally<L>,
) -> Result<Place, AllocError>
    requires within { at < length tables.old.items }
    requires absent { count_of (entries_at tables.old.items at) tuple.now ≡ 0 }
    requires wide { length tuple.now ≡ width_at tables.old.items at }
    requires few { length (entries_at tables.old.items at) < TUPLES }
    requires plain { marked ≡ false → marks (entries_at tables.old.items at) ≡ [] }
    ensures inserted { IfOk result (λ p. InsertedAs marked (key_at tables.old.items at)
        (entries_at tables.old.items at) (entries_at tables.new.items at) tuple.now) }
    ensures lies { IfOk result (λ p. IsAt (entries_at tables.new.items at) p tuple.now) }
    ensures refused { OnErr result (entries_at tables.new.items at ≡ entries_at tables.old.items at) }
    ensures changed { ChangedOneTable tables.old.items tables.new.items at }
    ensures counted { tally.new ≡ tally.old + 1 }
{
    let table = &mut tables[at];
    table.insert_as(tuple, marked, tally)
}

/// Removes the tuple at a place from the table of a node.
pub(crate) fn remove_at<L: Ledger>(
    tables: &mut Vec<Table>,
    at: usize,
    place: Place,
    tally: &mut Tally<L>,
)
    requires within { at < length tables.old.items }
    requires live { IsOccupied (entries_at tables.old.items at) place }
    ensures removed { (u : List ℕ) → IsAt (entries_at tables.old.items at) place u
        → Removed (entries_at tables.old.items at) (entries_at tables.new.items at) u }
    ensures changed { ChangedOneTable tables.old.items tables.new.items at }
    ensures counted { tally.new ≡ tally.old + 1 }
{
    let table = &mut tables[at];
    table.remove(place, tally);
}
