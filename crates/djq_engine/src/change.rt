//! A change of a relation's rows, in the catalog and in the queries that read it.
ghost use Rattle.std.specs.Prelude.{◌≡◌, ◌<◌, ◌≤◌, true, false, length};
ghost use Rattle.djq_model.specs.Data.{Tuple, has_row, with_row, without_copies};
ghost use Rattle.djq_model.specs.Typed.{fits};
ghost use Rattle.djq_protocol.specs.declared.limits.TheConstants.{ROWS};
ghost use Rattle.djq_database.specs.Catalog.{StandForRow, relation_at, counted_at, rows_at};
ghost use Rattle.djq_engine.specs.Changing.{HasRow, AddsCells, AddsTo, DeletesFrom, KeepsRest};
ghost use Rattle.djq_engine.specs.Changing.{for_text};
ghost use Rattle.djq_engine.specs.Changing.{IfCame, IfLacking, IfStill, IfWent, IfNoneWent};
ghost use Rattle.djq_engine.specs.Changing.{TellsRows, CountsRows};
ghost use Rattle.djq_engine.specs.Changing.{KeepsLogs, WorksRows, reads_at, tells_at};
ghost use Rattle.djq_reach.specs.Places.{readers_at};
ghost use Rattle.djq_reach.specs.Tending.{LogsCanBeShown, AreUnwatched};
ghost use Rattle.djq_engine.specs.Whole.{EngineIsWhole, IsTended};

use crate::parts::Parts;
use djq_counters::{Ledgers, Steps};
use djq_database::{RelationId, RowsRefusal};
use djq_dictionary::InternRefusal;
use djq_index::Cells;
use djq_model::Value;
use djq_protocol::{AddOutcome, DeleteOutcome};
use djq_reach::{delete_from_readers, insert_into_readers};

/// Why a row that suits its relation isn't added.
#[derive(Clone, Copy, Debug, PartialEq, Eq)]
pub enum AddRefusal {
    /// There are as many copies of the row, or as many texts, as there may be.
    Full,
    /// Out of memory.
    NoMem,
}

/// Why a row isn't added of which a text isn't made known.
fn for_text(refusal: InternRefusal) -> AddRefusal
    ensures { result ≡ for_text refusal }
{
    match refusal {
        InternRefusal::Full => AddRefusal::Full,
        InternRefusal::NoMem => AddRefusal::NoMem,
    }
}

/// Adds a row by its cells, or a copy of it if it is there. A new row is inserted into the queries
/// that read the relation.
///
/// # Errors
///
/// `Full` if there is no place for one more; `NoMem` out of memory, and no row has changed.
fn put_cells<L: Ledgers>(
    parts: &mut Parts,
    id: RelationId,
    cells: &[u64],
    steps: &mut Steps<L>,
) -> Result<AddOutcome, AddRefusal>
    requires whole { EngineIsWhole parts.old }
    requires tended { IsTended parts.old }
    requires there { id.at < length parts.old.catalog.relations }
    requires row { HasRow parts.old.catalog id.at cells.now }
    ensures adds { (row : Tuple) → StandForRow parts.old.catalog id.at cells.now row
        → AddsCells id.at row parts.old result parts.new }
    ensures rest { KeepsRest parts.old parts.new }
    ensures quiet { IfCame result (KeepsLogs (tells_at parts.old id.at) parts.old parts.new) }
    ensures apart { IfLacking result (KeepsLogs (reads_at parts.old id.at) parts.old parts.new) }
    ensures shown { LogsCanBeShown parts.new.catalog.texts parts.old.queries.items parts.new.logs.items }
    ensures tells { IfCame result ((row : Tuple) → StandForRow parts.old.catalog id.at cells.now row
        → TellsRows id.at (with_row (counted_at parts.old.catalog.relations id.at) row) parts.old
        parts.new) }
    ensures counted { IfCame result ((row : Tuple)
        → StandForRow parts.old.catalog id.at cells.now row
        → CountsRows id.at (with_row (counted_at parts.old.catalog.relations id.at) row) parts.old
        steps.old.listing steps.new.listing) }
    ensures listed { IfLacking result ((row : Tuple)
        → StandForRow parts.old.catalog id.at cells.now row
        → CountsRows id.at (with_row (counted_at parts.old.catalog.relations id.at) row) parts.old
        steps.old.listing steps.new.listing) }
    ensures idle { IfStill result (steps.new.listing ≤ steps.old.listing) }
    ensures unlisted { AreUnwatched parts.old.watchers.items
        (readers_at parts.old.readers.items id.at) → steps.new.listing ≡ steps.old.listing }
    ensures updates { IfCame result (WorksRows id.at 1 parts.old
        steps.old.update steps.new.update) }
    ensures refusal { IfLacking result (WorksRows id.at 3 parts.old
        steps.old.update steps.new.update) }
    ensures unmoved { IfStill result (steps.new.update ≤ steps.old.update) }
{
    parts.catalog.laws();
    match parts.catalog.add_row(id, cells, &mut steps.rows) {
        Ok(AddOutcome::First) => {}
        Ok(AddOutcome::More(copies)) => {
            parts.catalog.laws();
            return Ok(AddOutcome::More(copies));
        }
        Err(RowsRefusal::NameTaken) => unreachable!(),
        Err(RowsRefusal::Full) => return Err(AddRefusal::Full),
        Err(RowsRefusal::NoMem) => return Err(AddRefusal::NoMem),
    }
    parts.catalog.laws();
    let places = parts.readers[id.at].as_slice();
    let watchers = parts.watchers.as_slice();
    match insert_into_readers(
        &mut parts.queries,
        watchers,
        &mut parts.logs,
        places,
        id,
        cells,
        steps,
    ) {
        Ok(()) => Ok(AddOutcome::First),
        Err(_error) => {
            let _ = parts.catalog.delete_row(id, cells, &mut steps.rows);
            Err(AddRefusal::NoMem)
        }
    }
}

/// Adds a row that suits a relation, or a copy of it if it is there. If it isn't, its texts become
/// known.
///
/// # Errors
///
/// `Full` if the row has as many copies as there may be, or if a text is unknown and as many are known
/// as may be; `NoMem` out of memory, and then cursors over the relation are to be outdated.
pub fn put_row<L: Ledgers>(
    parts: &mut Parts,
    id: RelationId,
    row: &[Value],
    steps: &mut Steps<L>,
) -> Result<AddOutcome, AddRefusal>
    requires whole { EngineIsWhole parts.old }
    requires tended { IsTended parts.old }
    requires there { id.at < length parts.old.catalog.relations }
    requires suits { fits (relation_at parts.old.catalog.relations id.at).types row.now ≡ true }
    requires room { has_row (rows_at parts.old.catalog.relations id.at) row.now ≡ false
        → length (rows_at parts.old.catalog.relations id.at) < ROWS }
    ensures adds { AddsTo id.at row.now parts.old result parts.new }
    ensures rest { KeepsRest parts.old parts.new }
    ensures quiet { IfCame result (KeepsLogs (tells_at parts.old id.at) parts.old parts.new) }
    ensures apart { IfLacking result (KeepsLogs (reads_at parts.old id.at) parts.old parts.new) }
    ensures shown { LogsCanBeShown parts.new.catalog.texts parts.old.queries.items parts.new.logs.items }
    ensures tells { IfCame result (TellsRows id.at
        (with_row (counted_at parts.old.catalog.relations id.at) row.now) parts.old parts.new) }
    ensures counted { IfCame result (CountsRows id.at
        (with_row (counted_at parts.old.catalog.relations id.at) row.now) parts.old
        steps.old.listing steps.new.listing) }
    ensures listed { IfLacking result (CountsRows id.at
        (with_row (counted_at parts.old.catalog.relations id.at) row.now) parts.old
        steps.old.listing steps.new.listing) }
    ensures idle { IfStill result (steps.new.listing ≤ steps.old.listing) }
    ensures unlisted { AreUnwatched parts.old.watchers.items
        (readers_at parts.old.readers.items id.at) → steps.new.listing ≡ steps.old.listing }
    ensures updates { IfCame result (WorksRows id.at 1 parts.old
        steps.old.update steps.new.update) }
    ensures refusal { IfLacking result (WorksRows id.at 3 parts.old
        steps.old.update steps.new.update) }
    ensures unmoved { IfStill result (steps.new.update ≤ steps.old.update) }
{
    parts.catalog.laws();
    let mut cells = Cells::new(0);
    match parts.catalog.intern_cells(row, &mut cells) {
        Ok(()) => {}
        Err(refusal) => {
            parts.catalog.laws();
            return Err(for_text(refusal));
        }
    }
    parts.catalog.laws();
    put_cells(parts, id, cells.as_slice(), steps)
}

/// Deletes a copy of a row by its cells, and the row with its last one. Then it is deleted from the
/// queries that read the relation. It needs no memory but the logs'.
pub fn drop_cells<L: Ledgers>(
    parts: &mut Parts,
    id: RelationId,
    cells: &[u64],
    steps: &mut Steps<L>,
) -> DeleteOutcome
    requires whole { EngineIsWhole parts.old }
    requires tended { IsTended parts.old }
    requires there { id.at < length parts.old.catalog.relations }
    requires row { HasRow parts.old.catalog id.at cells.now }
    ensures deletes { (row : Tuple) → StandForRow parts.old.catalog id.at cells.now row
        → DeletesFrom id.at row parts.old result parts.new }
    ensures rest { KeepsRest parts.old parts.new }
    ensures quiet { IfWent result (KeepsLogs (tells_at parts.old id.at) parts.old parts.new) }
    ensures shown { LogsCanBeShown parts.new.catalog.texts parts.old.queries.items parts.new.logs.items }
    ensures tells { IfWent result ((row : Tuple)
        → StandForRow parts.old.catalog id.at cells.now row
        → TellsRows id.at (without_copies (counted_at parts.old.catalog.relations id.at) row)
        parts.old parts.new) }
    ensures counted { IfWent result ((row : Tuple)
        → StandForRow parts.old.catalog id.at cells.now row
        → CountsRows id.at (without_copies (counted_at parts.old.catalog.relations id.at) row)
        parts.old steps.old.listing steps.new.listing) }
    ensures idle { IfNoneWent result (steps.new.listing ≤ steps.old.listing) }
    ensures unlisted { AreUnwatched parts.old.watchers.items
        (readers_at parts.old.readers.items id.at) → steps.new.listing ≡ steps.old.listing }
    ensures updates { IfWent result (WorksRows id.at 1 parts.old
        steps.old.update steps.new.update) }
    ensures unmoved { IfNoneWent result (steps.new.update ≤ steps.old.update) }
{
    parts.catalog.laws();
    match parts.catalog.delete_row(id, cells, &mut steps.rows) {
        DeleteOutcome::Last => {}
        DeleteOutcome::Left(copies) => {
            parts.catalog.laws();
            return DeleteOutcome::Left(copies);
        }
        DeleteOutcome::Absent => return DeleteOutcome::Absent,
    }
    parts.catalog.laws();
    let places = parts.readers[id.at].as_slice();
    let watchers = parts.watchers.as_slice();
    delete_from_readers(
        &mut parts.queries,
        watchers,
        &mut parts.logs,
        places,
        id,
        cells,
        steps,
    );
    DeleteOutcome::Last
}
