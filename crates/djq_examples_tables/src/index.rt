ghost use Rattle.std.specs.Prelude.{◌≡◌};

use djq_counters::{Blanks, Ledgers, Steps, Tally};
use djq_index::{Cells, Table};
use std::alloc::{AllocError, Global};
use std::marker::Brand;
use std::sync::ledger::Ledger;
use std::test::Fail;

/// A digest of cells, in their order, after those of another.
fn digest(of: u64, cells: &[u64]) -> u64 {
    let mut sum = of;
    for cell in cells {
        sum = (sum ^ *cell)
            .wrapping_mul(0x9E37_79B9_7F4A_7C15)
            .rotate_left(29);
    }
    sum
}

/// A digest of the tuples of a group, from its first one on.
fn group<L: Ledger>(table: &Table, cells: &[u64], tally: &mut Tally<L>) -> u64 {
    let mut sum = 0;
    let mut at = table.first(cells, tally);
    for _step in 0..table.len() {
        match at {
            None => return sum,
            Some(place) => {
                sum = digest(sum, table.tuple(place));
                at = table.next(place, tally);
            }
        }
    }
    sum
}

/// A digest of the tuples of a group, from its last one back.
fn group_back<L: Ledger>(table: &Table, cells: &[u64], tally: &mut Tally<L>) -> u64 {
    let mut sum = 0;
    let mut at = table.last(cells, tally);
    for _step in 0..table.len() {
        match at {
            None => return sum,
            Some(place) => {
                sum = digest(sum, table.tuple(place));
                at = table.prev(place, tally);
            }
        }
    }
    sum
}

/// A digest of the marked tuples.
fn marked<L: Ledger>(table: &Table, tally: &mut Tally<L>) -> u64 {
    let mut sum = 0;
    let mut at = table.first_marked(tally);
    for _step in 0..table.len() {
        match at {
            None => return sum,
            Some(place) => {
                sum = digest(sum, table.tuple(place));
                at = table.next_marked(place, tally);
            }
        }
    }
    sum
}

/// Puts in a tuple of the table's width that isn't there, and returns whether it was inserted.
fn put<L: Ledger>(table: &mut Table, tuple: &[u64], tally: &mut Tally<L>) -> bool {
    if tuple.len() != table.width() || table.len() >= u32::MAX as usize {
        return false;
    }
    match table.find(tuple, tally) {
        Some(_place) => false,
        None => table.insert(tuple, tally).is_ok(),
    }
}

/// Removes a tuple, and returns whether it was there.
fn take<L: Ledger>(table: &mut Table, tuple: &[u64], tally: &mut Tally<L>) -> bool {
    match table.find(tuple, tally) {
        None => false,
        Some(place) => {
            table.remove(place, tally);
            true
        }
    }
}

/// Touches a tuple that is there without a mark, and returns whether it was.
fn touch<L: Ledger>(table: &mut Table, tuple: &[u64], tally: &mut Tally<L>) -> bool {
    match table.find(tuple, tally) {
        None => false,
        Some(place) => {
            if table.marked(place) {
                return false;
            }
            table.touch(place, tally);
            true
        }
    }
}

/// Gives a tuple one support more, and returns how many it has then.
fn raise<L: Ledger>(table: &mut Table, tuple: &[u64], tally: &mut Tally<L>) -> Option<u32> {
    let place = table.find(tuple, tally)?;
    if table.supports(place) == u32::MAX {
        return None;
    }
    table.raise(place, tally);
    let place = table.find(tuple, tally)?;
    Some(table.supports(place))
}

/// Removes one support of a tuple, and returns how many it has then.
fn lower<L: Ledger>(table: &mut Table, tuple: &[u64], tally: &mut Tally<L>) -> Option<u32> {
    let place = table.find(tuple, tally)?;
    if table.supports(place) == 0 {
        return None;
    }
    table.lower(place, tally);
    let place = table.find(tuple, tally)?;
    Some(table.supports(place))
}

/// An empty table of pairs, in groups by their first cells.
#[tactic(auto, unfolding(djq_index::specs::Table::AreColumns))]
fn pairs(alloc: Global) -> Result<Table, AllocError> {
    Table::new(alloc, 2, &[0])
}

/// Three tuples, in two groups by their first cells, the first of them touched.
fn fill<L: Ledger>(table: &mut Table, tally: &mut Tally<L>) {
    let _ = put(table, &[1, 10], tally);
    let _ = put(table, &[2, 20], tally);
    let _ = put(table, &[1, 11], tally);
    table.clear_marks(tally);
    let _ = touch(table, &[1, 10], tally);
}

/// What there is to see of these: a group from both ends, and the marks.
fn is_in_order<L: Ledger>(table: &Table, tally: &mut Tally<L>) -> bool {
    group(table, &[1], tally) == digest(0, &[1, 11, 1, 10])
        && group_back(table, &[1], tally) == digest(0, &[1, 10, 1, 11])
        && marked(table, tally) == digest(0, &[1, 10])
}

/// The width, the number of key columns and the number of tuples.
fn sizes(table: &Table) -> (usize, usize, usize, bool) {
    table.laws();
    (
        table.width(),
        table.key().len(),
        table.len(),
        table.is_empty(),
    )
}

#[derive(Clone, Copy)]
struct Seen {
    in_order: bool,
    raised: Option<u32>,
    lowered: Option<u32>,
    sizes: (usize, usize, usize, bool),
}

/// What is seen of three tuples.
fn look_at<L: Ledger>(table: &mut Table, tally: &mut Tally<L>) -> Seen {
    fill(table, tally);
    let in_order = is_in_order(table, tally);
    let raised = raise(table, &[2, 20], tally);
    let lowered = lower(table, &[2, 20], tally);
    let _ = take(table, &[1, 11], tally);
    Seen {
        in_order,
        raised,
        lowered,
        sizes: sizes(table),
    }
}

/// Puts 1,000 pairs into an empty table, in 10 groups, and returns whether each was inserted and is found.
fn grows<L: Ledger>(table: &mut Table, tally: &mut Tally<L>) -> bool {
    let mut found = true;
    for number in 0..1_000u64 {
        let tuple = [number % 10, number];
        found = put(table, &tuple, tally) && table.find(&tuple, tally).is_some() && found;
    }
    found && table.len() == 1_000
}

/// The worked example, and a table that grows.
fn on_ledgers<L: Ledgers>(rt: &HostRuntime, blanks: Blanks) -> Result<(Seen, bool), AllocError>
    requires listing { blanks.listing.name ≡ L.listing }
    requires update { blanks.update.name ≡ L.update }
    requires rows { blanks.rows.name ≡ L.rows }
{
    let mut steps = Steps::<L>::new(rt, blanks);
    let mut table = pairs(rt.alloc())?;
    let seen = look_at(&mut table, &mut steps.update);
    let mut large = pairs(rt.alloc())?;
    let grown = grows(&mut large, &mut steps.update);
    Ok((seen, grown))
}

#[test]
fn keeps_groups_in_order(rt: HostRuntime) -> Result<(), Fail> {
    let (seen, grown) = on_ledgers::<Brand>(&rt, Blanks::new(&rt))?;
    assert!(rt; seen.in_order);
    assert!(rt; seen.raised == Some(2));
    assert!(rt; seen.lowered == Some(1));
    assert!(rt; seen.sizes == (2, 1, 2, false));
    assert!(rt; grown);
    Ok(())
}

#[test]
fn writes_cells(rt: HostRuntime) {
    let mut cells = Cells::new(3);
    cells.set(1, 5);
    cells.set(2, 7);
    assert!(rt; cells.len() == 3);
    assert!(rt; cells.as_slice() == [0, 5, 7].as_slice());
    cells.push(9);
    let copy = Cells::from_slice(cells.as_slice());
    assert!(rt; copy.as_slice() == [0, 5, 7, 9].as_slice());
    cells.take_part(&[0, 5, 7], &[2, 0]);
    assert!(rt; cells.as_slice() == [7, 0].as_slice());
    cells.take_all(&[4]);
    assert!(rt; cells.as_slice() == [4].as_slice());
}
