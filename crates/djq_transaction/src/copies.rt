//! The copies of one row of a catalog.
ghost use Rattle.std.specs.Prelude.{◌≡◌, ◌<◌, ◌≤◌, length, OnOk, OnErr};
ghost use Rattle.djq_database.specs.Catalog.{rows_at};
ghost use Rattle.djq_protocol.specs.declared.limits.TheConstants.{ROWS};
ghost use Rattle.djq_transaction.specs.Applied.{HasCopiesAt, SetsCopiesAt};

use crate::net::Copies;
use djq_counters::Tally;
use djq_database::{Catalog, RelationId, RowsRefusal};
use djq_model::NoMem;
use std::sync::ledger::Ledger;

/// Adds copies of a row that is there, from one number of them to another. It allocates nothing.
fn add_copies<L: Ledger>(
    catalog: &mut Catalog,
    id: RelationId,
    cells: &[u64],
    from: u32,
    to: u32,
    tally: &mut Tally<L>,
)
    requires counted { HasCopiesAt catalog.old id.at cells.now from }
    requires some { 1 ≤ from }
    requires more { from ≤ to }
    ensures set { SetsCopiesAt catalog.old id.at cells.now to catalog.new.relations }
    ensures texts { catalog.new.texts ≡ catalog.old.texts }
{
    catalog.laws();
    for _count in from..to {
        // It is there with fewer copies than it may have, so it gets one.
        let _outcome = catalog.add_row(id, cells, tally);
    }
}

/// Deletes copies of a row, from one number of them to another; with the last one the row is removed. It allocates nothing.
pub(crate) fn delete_copies<L: Ledger>(
    catalog: &mut Catalog,
    id: RelationId,
    cells: &[u64],
    from: u32,
    to: u32,
    tally: &mut Tally<L>,
)
    requires counted { HasCopiesAt catalog.old id.at cells.now from }
    requires fewer { to ≤ from }
    ensures set { SetsCopiesAt catalog.old id.at cells.now to catalog.new.relations }
    ensures texts { catalog.new.texts ≡ catalog.old.texts }
{
    catalog.laws();
    let mut left = from;
    while left > to {
        left -= 1;
        let _outcome = catalog.delete_row(id, cells, tally);
    }
}

/// Inserts a row with so many copies.
///
/// # Errors
///
/// `NoMem` out of memory; no relation has changed.
pub(crate) fn insert_row<L: Ledger>(
    catalog: &mut Catalog,
    id: RelationId,
    cells: &[u64],
    copies: u32,
    tally: &mut Tally<L>,
) -> Result<(), NoMem>
    requires counted { HasCopiesAt catalog.old id.at cells.now 0 }
    requires few { length (rows_at catalog.old.relations id.at) < ROWS }
    requires some { 1 ≤ copies }
    ensures set { OnOk result (SetsCopiesAt catalog.old id.at cells.now copies catalog.new.relations) }
    ensures err { OnErr result (catalog.new.relations ≡ catalog.old.relations) }
    ensures texts { catalog.new.texts ≡ catalog.old.texts }
{
    catalog.laws();
    match catalog.add_row(id, cells, tally) {
        Ok(_first) => {}
        Err(RowsRefusal::NoMem) => return Err(NoMem),
        Err(RowsRefusal::Full) => unreachable!(),
        Err(RowsRefusal::NameTaken) => unreachable!(),
    }
    add_copies(catalog, id, cells, 1, copies, tally);
    Ok(())
}

/// Sets the copies of a row that isn't inserted. It allocates nothing.
pub(crate) fn change_copies<L: Ledger>(
    catalog: &mut Catalog,
    id: RelationId,
    cells: &[u64],
    copies: Copies,
    tally: &mut Tally<L>,
)
    requires counted { HasCopiesAt catalog.old id.at cells.now copies.before }
    requires there { copies.before ≡ 0 → copies.after ≡ 0 }
    ensures set { SetsCopiesAt catalog.old id.at cells.now copies.after catalog.new.relations }
    ensures texts { catalog.new.texts ≡ catalog.old.texts }
{
    if copies.before < copies.after {
        add_copies(catalog, id, cells, copies.before, copies.after, tally);
    } else {
        delete_copies(catalog, id, cells, copies.before, copies.after, tally);
    }
}
