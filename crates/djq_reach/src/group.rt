ghost use Rattle.std.specs.Prelude.{◌≡◌, [], ◌∷◌, ◌++◌, OnOk, OnErr};

use djq_database::RelationId;
use djq_model::NoMem;
use djq_reduct::Cells;
use smallvec::SmallVec;
use std::alloc::Global;
use std::marker::Model;

/// Rows that are inserted into a relation at once, each given by its cells.
#[derive(Drop)]
pub struct Group {
    /// The relation.
    pub relation: RelationId,
    /// The rows.
    pub rows: GroupRows,
}

/// The rows of a group, in order: one of them inline. Contracts see a list.
#[derive(Drop)]
pub struct GroupRows {
    rows: SmallVec<Cells, 1>,
}

impl Model for GroupRows {
    ghost use Rattle.std.specs.Prelude.{List, ℕ};

    ghost Value = { List (List ℕ) };

    ghost view = { λ g. g.rows.items };
}

impl GroupRows {
    /// No row. It allocates nothing.
    pub fn new(alloc: Global) -> Self
        ensures { result ≡ [] }
    {
        GroupRows {
            rows: SmallVec::new(alloc),
        }
    }

    /// The rows.
    pub fn as_slice(&self) -> &[Cells]
        ensures { result.now ≡ self.now }
    {
        self.rows.as_slice()
    }

    /// Appends a row.
    ///
    /// # Errors
    ///
    /// `NoMem` out of memory; nothing has changed.
    pub fn push(&mut self, row: Cells) -> Result<(), NoMem>
        ensures ok { OnOk result (self.new ≡ self.old ++ row ∷ []) }
        ensures err { OnErr result (self.new ≡ self.old) }
    {
        self.rows.push(row)?;
        Ok(())
    }
}
