//! Why a query can't be asked over a catalog.
ghost use Rattle.std.specs.Prelude.{◌≡◌, ◌<◌, length};
ghost use Rattle.djq_protocol.specs.QueryFault.{query_fault};

use djq_database::{Catalog, RelationId};
use djq_model::{ColumnType, Name, Query};
use djq_protocol::Refusal;
use djq_query::Relations;

/// A catalog, as the relations that a query may read.
#[derive(Drop)]
pub(crate) struct Shown<'a> {
    pub(crate) catalog: &'a Catalog,
}

impl<'a> Relations for Shown<'a> {
    ghost use Rattle.std.specs.Prelude.{List};
    ghost use Rattle.djq_model.specs.declared.relation.Relation.{Relation};

    ghost relations = { λ s. s.catalog.now.relations };

    fn id(&self, name: &Name) -> Option<usize> {
        match self.catalog.id(name) {
            Some(id) => Some(id.at),
            None => None,
        }
    }

    fn columns(&self, id: usize) -> &[ColumnType] {
        self.catalog.columns(RelationId { at: id })
    }
}

/// Why a query can't be asked over a catalog's relations: the first fault that it has, and none
/// if it has none. It needs no memory.
pub fn query_fault_of(catalog: &Catalog, query: &Query) -> Option<Refusal>
    ensures { result ≡ query_fault catalog.now.relations query.now }
{
    djq_query::query_fault(&Shown { catalog }, query)
}
