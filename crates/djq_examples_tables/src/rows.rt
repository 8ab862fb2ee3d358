ghost use Rattle.std.specs.Prelude.{◌≡◌, true};
ghost use Rattle.djq_model.specs.Typed.{is_of};

use djq_counters::{Blanks, Ledgers, Steps, Tally};
use djq_database::{
    Catalog, RelationId, RowsRefusal, cells_differ, cells_stay, rows_by_name_or_place, texts_stay,
};
use djq_index::{CELLS, Cells};
use djq_model::{ColumnType, Name, Row, Text, Types, Value, ValueRef};
use djq_protocol::limits::COLUMNS;
use djq_protocol::{AddOutcome, DeleteOutcome};
use std::alloc::Global;
use std::marker::Brand;
use std::sync::ledger::Ledger;
use std::test::Fail;

/// A text of one byte.
fn letter(alloc: Global, byte: u8) -> Result<Value, Fail> {
    let bytes = vec![in alloc; byte; 1]?;
    Ok(Value::Text(Text::new(bytes)))
}

/// A row of an integer and a text of one byte.
fn pair(alloc: Global, number: i64, byte: u8) -> Result<Row, Fail> {
    let mut row = Row::new(alloc);
    row.push(Value::Int(number))?;
    row.push(letter(alloc, byte)?)?;
    Ok(row)
}

/// Makes a relation of such rows, if its name is short enough.
fn make(alloc: Global, catalog: &mut Catalog, name: &[u8]) -> Result<RelationId, Fail> {
    let mut types = Types::new(alloc);
    types.push(ColumnType::Int)?;
    types.push(ColumnType::Text)?;
    if name.len() > 32 || types.is_empty() || types.len() > COLUMNS {
        return Err(RowsRefusal::Full)?;
    }
    Ok(catalog.relation(Name::new(name), types)?)
}

/// Adds a row, if it suits its relation.
fn add<L: Ledger>(
    catalog: &mut Catalog,
    id: RelationId,
    row: &[Value],
    tally: &mut Tally<L>,
) -> Result<Option<AddOutcome>, Fail> {
    if id.at >= catalog.len() {
        return Ok(None);
    }
    if row.len() > CELLS {
        return Ok(None);
    }
    if !catalog.suits(id, row) {
        return Ok(None);
    }
    let mut cells = Cells::new(0);
    catalog.intern_cells(row, &mut cells)?;
    let outcome = catalog.add_row(id, cells.as_slice(), tally)?;
    Ok(Some(outcome))
}

/// Deletes a row, if it suits its relation.
fn delete<L: Ledger>(
    catalog: &mut Catalog,
    id: RelationId,
    row: &[Value],
    tally: &mut Tally<L>,
) -> Option<DeleteOutcome> {
    if id.at >= catalog.len() {
        return None;
    }
    if row.len() > CELLS {
        return None;
    }
    if !catalog.suits(id, row) {
        return None;
    }
    match catalog.cells(row) {
        Some(cells) => Some(catalog.delete_row(id, cells.as_slice(), tally)),
        None => Some(DeleteOutcome::Absent),
    }
}

/// Whether a row is there, and how many copies of it.
fn held<L: Ledger>(
    catalog: &Catalog,
    id: RelationId,
    row: &[Value],
    tally: &mut Tally<L>,
) -> (bool, u32) {
    if id.at >= catalog.len() {
        return (false, 0);
    }
    if row.len() > CELLS {
        return (false, 0);
    }
    match catalog.cells(row) {
        Some(cells) => (
            catalog.has_row(id, cells.as_slice(), tally),
            catalog.copies(id, cells.as_slice(), tally),
        ),
        None => (false, 0),
    }
}

/// The cells of all rows, one after the other.
fn all_cells<L: Ledger>(
    alloc: Global,
    catalog: &Catalog,
    id: RelationId,
    tally: &mut Tally<L>,
) -> Result<Vec<u64>, Fail> {
    let mut all = Vec::new(alloc);
    if id.at >= catalog.len() {
        return Ok(all);
    }
    let mut walk = catalog.rows(id, tally);
    for _row in 0..walk.len() {
        if let Some(cells) = walk.next(tally) {
            all.extend_from_slice(cells)?;
        }
    }
    Ok(all)
}

/// The type of the columns that a value may be in.
fn column_of(value: &Value) -> ColumnType
    ensures { is_of result value.now ≡ true }
{
    match value {
        Value::Int(_) => ColumnType::Int,
        Value::Text(_) => ColumnType::Text,
    }
}

/// The value of the cell of a value.
fn read_back<'a>(catalog: &'a Catalog, value: &Value) -> Option<ValueRef<'a>> {
    let column = column_of(value);
    match catalog.cell(value) {
        Some(cell) => Some(catalog.value(column, cell)),
        None => None,
    }
}

/// What adding and deleting answers, and what is there in between.
#[derive(Drop)]
struct Kept {
    added: [Option<AddOutcome>; 3],
    cells: Vec<u64>,
    held: (bool, u32),
    deleted: [Option<DeleteOutcome>; 2],
}

/// Adds two rows, of both ends of 64 bits, and the first of them again, and deletes it twice.
fn keep_rows<L: Ledger>(
    alloc: Global,
    catalog: &mut Catalog,
    tally: &mut Tally<L>,
) -> Result<Kept, Fail> {
    let id = make(alloc, catalog, b"r")?;
    let low = pair(alloc, i64::MIN, b'a')?;
    let high = pair(alloc, i64::MAX, b'b')?;
    let first = add(catalog, id, low.as_slice(), tally)?;
    let second = add(catalog, id, high.as_slice(), tally)?;
    let third = add(catalog, id, low.as_slice(), tally)?;
    let cells = all_cells(alloc, catalog, id, tally)?;
    let held = held(catalog, id, low.as_slice(), tally);
    let left = delete(catalog, id, low.as_slice(), tally);
    let last = delete(catalog, id, low.as_slice(), tally);
    Ok(Kept {
        added: [first, second, third],
        cells,
        held,
        deleted: [left, last],
    })
}

/// Makes as many relations as there may be, and returns how many have their places.
fn make_many(alloc: Global, catalog: &mut Catalog) -> Result<usize, Fail> {
    let mut right = 0;
    for number in 0..256u16 {
        let id = make(alloc, catalog, &number.to_be_bytes())?;
        if id.at == number as usize && right < 256 {
            right += 1;
        }
    }
    Ok(right)
}

/// Whether a relation has this name, two columns, and no rows.
fn is_as_made(catalog: &Catalog, id: RelationId, name: &[u8]) -> bool {
    if id.at >= catalog.len() {
        return false;
    }
    if catalog.row_count(id) != 0 {
        return false;
    }
    if catalog.columns(id).len() != 2 {
        return false;
    }
    catalog.name(id).as_bytes() == name
}

/// Whether a relation of this name is found at the place of its making.
fn finds(catalog: &Catalog, name: &[u8], at: usize) -> bool {
    if name.len() > 32 {
        return false;
    }
    match catalog.id(&Name::new(name)) {
        Some(id) => id.at == at && is_as_made(catalog, id, name),
        None => false,
    }
}

fn on_ledgers<L: Ledgers>(
    rt: &HostRuntime,
    catalog: &mut Catalog,
    blanks: Blanks,
) -> Result<Kept, Fail>
    requires listing { blanks.listing.name ≡ L.listing }
    requires update { blanks.update.name ≡ L.update }
    requires rows { blanks.rows.name ≡ L.rows }
{
    let mut steps = Steps::<L>::new(rt, blanks);
    keep_rows(rt.alloc(), catalog, &mut steps.rows)
}

#[test]
fn keeps_rows_and_texts(rt: HostRuntime) -> Result<(), Fail> {
    let mut catalog = Catalog::new(rt.alloc())?;
    let kept = on_ledgers::<Brand>(&rt, &mut catalog, Blanks::new(&rt))?;
    let added = Some(AddOutcome::First);
    assert!(rt; kept.added == [added, added, Some(AddOutcome::More(2))]);
    assert!(rt;
        kept.cells.as_slice() == [0x8000_0000_0000_0000, 0, 0x7fff_ffff_ffff_ffff, 1].as_slice()
    );
    assert!(rt; kept.held == (true, 2));
    assert!(rt; kept.deleted == [Some(DeleteOutcome::Left(1)), Some(DeleteOutcome::Last)]);
    Ok(())
}

#[test]
fn lends_values(rt: HostRuntime) -> Result<(), Fail> {
    let mut catalog = Catalog::new(rt.alloc())?;
    let text = letter(rt.alloc(), b'b')?;
    assert!(rt; read_back(&catalog, &text).is_none());
    let _cell = catalog.intern(&text)?;
    assert!(rt; matches!(read_back(&catalog, &text), Some(ValueRef::Text(b"b"))));
    assert!(rt;
        matches!(
            read_back(&catalog, &Value::Int(-1)),
            Some(ValueRef::Int(-1))
        )
    );
    Ok(())
}

#[test]
fn finds_relations_by_name(rt: HostRuntime) -> Result<(), Fail> {
    let mut catalog = Catalog::new(rt.alloc())?;
    assert!(rt; make_many(rt.alloc(), &mut catalog)? == 256);
    assert!(rt; finds(&catalog, &9u16.to_be_bytes(), 9));
    catalog.laws();
    Ok(())
}

#[test]
fn has_laws() {
    cells_differ();
    cells_stay();
    texts_stay();
    rows_by_name_or_place();
}
