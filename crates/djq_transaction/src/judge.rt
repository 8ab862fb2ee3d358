//! Whether a line has its place over what the lines before it leave, and what it leaves.
ghost use Rattle.std.specs.Prelude.{◌≡◌, ◌++◌, ◌∷◌, ◌<◌, List, false, length, nat_le, IfOk, IfErr};
ghost use Rattle.djq_store_spec.specs.Held as spec;
ghost use Rattle.djq_protocol.specs.declared.held.Verb.TheVariants.{Add as Adds, Delete as Deletes};
ghost use Rattle.djq_store_spec.specs.Judging.{rows_reached, row_refusal, limit_if};
ghost use Rattle.djq_transaction.specs.LookUp.{Looked};
ghost use Rattle.djq_transaction.specs.Net.{IsNetTable, IsNet, SuitsAt, line_at, CanBeJudged, PassesLine, RefusesLine};
ghost use Rattle.djq_model.specs.Data.{has_row};
ghost use Rattle.djq_model.specs.Known.{knows_all, texts_in};
ghost use Rattle.djq_protocol.specs.declared.limits.TheConstants.{ROWS, COPIES};
ghost use Rattle.djq_database.specs.Cells.{HaveCells, cells_of};
ghost use Rattle.djq_database.specs.Catalog.{rows_at};

use crate::key::Key;
use crate::net::{Copies, Net, look_up};
use djq_counters::Tally;
use djq_database::{Catalog, RelationId};
use djq_dictionary::InternRefusal;
use djq_index::Cells;
use djq_model::Value;
use djq_protocol::LineRefusal;
use djq_protocol::limits::{COPIES, ROWS};
use std::sync::ledger::Ledger;

/// Room for the cells of a row, and for its key. It asks for no memory.
#[derive(Drop)]
pub(crate) struct Room {
    pub(crate) cells: Cells,
    pub(crate) key: Key,
}

/// A line that deletes a copy of a row of a relation.
///
/// # Errors
///
/// `Absent` if the row has no copy; `NoMemory` out of memory.
pub(crate) fn judge_delete<L: Ledger>(
    catalog: &Catalog,
    net: &mut Net,
    width: usize,
    id: RelationId,
    row: &[Value],
    room: &mut Room,
    tally: &mut Tally<L>,
) -> Result<(), LineRefusal>
    requires line { CanBeJudged catalog.now.relations width net.old
        (line_at Deletes catalog.now.relations id.at row.now) id.at }
    ensures ok { IfOk result (λ _. PassesLine catalog.now.relations catalog.now.texts width net.old
        (line_at Deletes catalog.now.relations id.at row.now) catalog.now.texts net.new) }
    ensures err { IfErr result (RefusesLine catalog.now.relations catalog.now.texts width net.old
        (line_at Deletes catalog.now.relations id.at row.now) catalog.now.texts) }
{
    catalog.laws();
    if !catalog.write_cells(row, &mut room.cells) {
        return Err(LineRefusal::Absent);
    }
    let (place, copies) = look_up(
        catalog,
        net,
        width,
        id,
        room.cells.as_slice(),
        &mut room.key,
        tally,
    );
    if copies.after == 0 {
        return Err(LineRefusal::Absent);
    }
    let left = Copies {
        before: copies.before,
        after: copies.after - 1,
    };
    match net.set(width, room.key.as_slice(), place, left) {
        Ok(()) => Ok(()),
        Err(_error) => Err(LineRefusal::NoMemory),
    }
}

/// Whether a relation has as many rows as it may, together with those that lines have added.
fn is_full(catalog: &Catalog, net: &Net, width: usize, id: RelationId) -> bool
    requires table { IsNetTable width net.now }
    requires some { 0 < width }
    requires below { id.at < length catalog.now.relations }
    ensures { (lines : List spec.HeldLine) (h : spec.HeldLine)
        → IsNet catalog.now.relations catalog.now.texts width lines net.now → SuitsAt catalog.now.relations h id.at
        → result ≡ nat_le ROWS (rows_reached catalog.now.relations lines h.relation) }
{
    catalog.laws();
    let rows = catalog.row_count(id);
    if rows >= ROWS {
        return true;
    }
    let places = ROWS - rows;
    if net.copies.len() < places {
        return false;
    }
    net.count_new(width, id.at) >= places
}

/// Whether no copy may be added of a row that was looked up: it has as many as it may, or it is new and its relation
/// is full.
fn has_no_place(
    catalog: &Catalog,
    net: &Net,
    width: usize,
    id: RelationId,
    place: Option<usize>,
    copies: Copies,
) -> bool
    requires table { IsNetTable width net.now }
    requires some { 0 < width }
    requires below { id.at < length catalog.now.relations }
    ensures refuses { (lines : List spec.HeldLine) (h : spec.HeldLine)
        → IsNet catalog.now.relations catalog.now.texts width lines net.now → SuitsAt catalog.now.relations h id.at
        → h.verb ≡ Adds → Looked catalog.now.relations lines h place copies
        → row_refusal catalog.now.relations lines h ≡ limit_if result }
    ensures few { result ≡ false → copies.after < COPIES }
{
    if copies.after >= COPIES {
        return true;
    }
    if place.is_some() || copies.before != 0 {
        return false;
    }
    is_full(catalog, net, width, id)
}

/// A line that adds a copy of a row whose texts are known.
///
/// # Errors
///
/// `Limit` if the row has as many copies as it may, or is new and the relation is full; `NoMemory` out of memory.
fn add_known_row<L: Ledger>(
    catalog: &Catalog,
    net: &mut Net,
    width: usize,
    id: RelationId,
    row: &[Value],
    room: &mut Room,
    tally: &mut Tally<L>,
) -> Result<(), LineRefusal>
    requires line { CanBeJudged catalog.now.relations width net.old
        (line_at Adds catalog.now.relations id.at row.now) id.at }
    requires have { HaveCells catalog.now.texts row.now }
    requires cells { room.old.cells ≡ cells_of catalog.now.texts row.now }
    ensures ok { IfOk result (λ _. PassesLine catalog.now.relations catalog.now.texts width net.old
        (line_at Adds catalog.now.relations id.at row.now) catalog.now.texts net.new) }
    ensures err { IfErr result (RefusesLine catalog.now.relations catalog.now.texts width net.old
        (line_at Adds catalog.now.relations id.at row.now) catalog.now.texts) }
{
    catalog.laws();
    let (place, copies) = look_up(
        catalog,
        net,
        width,
        id,
        room.cells.as_slice(),
        &mut room.key,
        tally,
    );
    if has_no_place(catalog, net, width, id, place, copies) {
        return Err(LineRefusal::Limit);
    }
    let more = Copies {
        before: copies.before,
        after: copies.after + 1,
    };
    match net.set(width, room.key.as_slice(), place, more) {
        Ok(()) => Ok(()),
        Err(_error) => Err(LineRefusal::NoMemory),
    }
}

/// A line that adds a row with a text that isn't known. So the row is new.
///
/// # Errors
///
/// `Limit` if the relation is full, or a text finds no place; `NoMemory` out of memory.
fn add_unknown_row(
    catalog: &mut Catalog,
    net: &mut Net,
    width: usize,
    id: RelationId,
    row: &[Value],
    room: &mut Room,
) -> Result<(), LineRefusal>
    requires line { CanBeJudged catalog.old.relations width net.old
        (line_at Adds catalog.old.relations id.at row.now) id.at }
    requires unknown { knows_all catalog.old.texts (texts_in row.now) ≡ false }
    requires absent { has_row (rows_at catalog.old.relations id.at) row.now ≡ false }
    ensures ok { IfOk result (λ _. PassesLine catalog.old.relations catalog.old.texts width net.old
        (line_at Adds catalog.old.relations id.at row.now) catalog.new.texts net.new) }
    ensures err { IfErr result (RefusesLine catalog.old.relations catalog.old.texts width net.old
        (line_at Adds catalog.old.relations id.at row.now) catalog.new.texts) }
    ensures relations { catalog.new.relations ≡ catalog.old.relations }
{
    let none = Copies {
        before: 0,
        after: 0,
    };
    if has_no_place(catalog, net, width, id, None, none) {
        return Err(LineRefusal::Limit);
    }
    match catalog.intern_cells(row, &mut room.cells) {
        Ok(()) => {}
        Err(InternRefusal::Full) => return Err(LineRefusal::Limit),
        Err(InternRefusal::NoMem) => {
            catalog.laws();
            return Err(LineRefusal::NoMemory);
        }
    }
    catalog.laws();
    room.key.write(width, id.at, room.cells.as_slice());
    let first = Copies {
        before: 0,
        after: 1,
    };
    match net.set(width, room.key.as_slice(), None, first) {
        Ok(()) => Ok(()),
        Err(_error) => Err(LineRefusal::NoMemory),
    }
}

/// A line that adds a copy of a row of a relation.
///
/// # Errors
///
/// `Limit` if the row has as many copies as it may, or is new and the relation is full, or a text of it finds no place;
/// `NoMemory` out of memory.
pub(crate) fn judge_add<L: Ledger>(
    catalog: &mut Catalog,
    net: &mut Net,
    width: usize,
    id: RelationId,
    row: &[Value],
    room: &mut Room,
    tally: &mut Tally<L>,
) -> Result<(), LineRefusal>
    requires line { CanBeJudged catalog.old.relations width net.old
        (line_at Adds catalog.old.relations id.at row.now) id.at }
    ensures ok { IfOk result (λ _. PassesLine catalog.old.relations catalog.old.texts width net.old
        (line_at Adds catalog.old.relations id.at row.now) catalog.new.texts net.new) }
    ensures err { IfErr result (RefusesLine catalog.old.relations catalog.old.texts width net.old
        (line_at Adds catalog.old.relations id.at row.now) catalog.new.texts) }
    ensures relations { catalog.new.relations ≡ catalog.old.relations }
{
    if catalog.write_cells(row, &mut room.cells) {
        add_known_row(catalog, net, width, id, row, room, tally)
    } else {
        add_unknown_row(catalog, net, width, id, row, room)
    }
}
