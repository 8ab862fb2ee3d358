use crate::name::Name;
use crate::sequence::Sequence;
use crate::value::{Row, Value};

/// The type of a column's cells.
#[derive(Clone, Copy, Debug, PartialEq, Eq)]
pub enum ColumnType {
    /// Integers.
    Int,
    /// Texts.
    Text,
}

impl ColumnType {
    ghost use Rattle.std.specs.Prelude.{◌≡◌};
    ghost use Rattle.djq_model.specs.Typed.{is_of, same_type};

    /// Whether a value is of this type.
    pub fn admits(self, value: &Value) -> bool
        ensures { result ≡ is_of self value.now }
    {
        match (self, value) {
            (ColumnType::Int, Value::Int(_)) => true,
            (ColumnType::Text, Value::Text(_)) => true,
            _ => false,
        }
    }

    /// Whether it is the same type as another.
    pub fn is_same(self, other: ColumnType) -> bool
        ensures { result ≡ same_type self other }
    {
        match (self, other) {
            (ColumnType::Int, ColumnType::Int) => true,
            (ColumnType::Text, ColumnType::Text) => true,
            _ => false,
        }
    }
}

/// The types of a relation's columns.
pub type Types = Sequence<ColumnType>;

/// A row of a relation, with its number of copies.
#[derive(Debug, Drop)]
pub struct CountedRow {
    /// The row.
    pub row: Row,
    /// The number of its copies, from 1 to 4,294,967,295.
    pub copies: u32,
}

/// A relation: its name, the types of its columns, and its rows.
#[derive(Debug, Drop)]
pub struct Relation {
    /// Its name.
    pub name: Name,
    /// The types of its columns, from 1 to 16.
    pub types: Types,
    /// Its rows, without repeats, each with its copies.
    pub rows: Sequence<CountedRow>,
}
