ghost use Rattle.std.specs.Prelude.{◌≡◌, ◌<◌, length};
ghost use Rattle.djq_protocol.specs.Columns.{columns_of};

use djq_model::{ColumnType, Name};

/// The relations that a query may read: each has a number, and is found by its name.
///
/// Contracts see the list of relations; a relation's number is its place there.
pub trait Relations {
    ghost use Rattle.std.specs.Prelude.{List};
    ghost use Rattle.djq_model.specs.declared.relation.Relation.{Relation};
    ghost use Rattle.djq_query.specs.Relations.{IsId, columns_at};

    ghost relations: { Self → List Relation };

    /// The number of the relation of a name. `None` if none has it.
    fn id(&self, name: &Name) -> Option<usize>
        ensures { IsId (relations self.now) name.now result };

    /// The types of a relation's columns.
    fn columns(&self, id: usize) -> &[ColumnType]
        requires { id < length (relations self.now) }
        ensures { result.now ≡ columns_at (relations self.now) id };
}

/// The types of the columns of the relation of a name; none if there is no such relation.
pub(crate) fn columns_of<'a, R: Relations>(relations: &'a R, name: &Name) -> &'a [ColumnType]
    ensures { result.now ≡ columns_of (R.relations relations.now) name.now }
{
    match relations.id(name) {
        Some(id) => relations.columns(id),
        None => &[],
    }
}
