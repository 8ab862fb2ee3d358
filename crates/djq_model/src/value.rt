ghost use Rattle.std.specs.Prelude.{◌≡◌, ◌≤◌, length};
ghost use Rattle.djq_model.specs.ValueRef.{value_lent};

use crate::sequence::Sequence;
use crate::value_ref::ValueRef;
use std::marker::Model;

/// The most bytes of a text.
pub const TEXT_BYTES: usize = 255;

/// A text of at most 255 bytes. Contracts see the list of its bytes.
#[derive(Debug, Drop)]
pub struct Text {
    bytes: Vec<u8>,
}

impl Model for Text {
    ghost use Rattle.std.specs.Prelude.{List, ℕ};

    ghost Value = { List ℕ };

    ghost use Rattle.std.specs.Prelude.{◌≤◌, length};
    ghost use Rattle.djq_model.specs.declared.value.TheConstants.{TEXT_BYTES};

    ghost view = { λ t. t.bytes.items };

    ghost invariant = { λ t. length t.bytes.items ≤ TEXT_BYTES };
}

impl Text {
    /// The text of these bytes.
    pub fn new(bytes: Vec<u8>) -> Self
        requires { length bytes.items ≤ TEXT_BYTES }
        ensures { result ≡ bytes.items }
    {
        Text { bytes }
    }

    /// Its bytes.
    pub fn as_bytes(&self) -> &[u8]
        ensures bytes { result.now ≡ self.now }
        ensures short { length result.now ≤ TEXT_BYTES }
    {
        self.bytes.as_slice()
    }
}

impl PartialEq for Text {
    ghost use Rattle.djq_model.specs.Data.{bytes_eq};
    ghost use Rattle.std.specs.Cmp.{partial_equiv_from_equiv};
    ghost use Rattle.std.specs.Cmp.Lexicographic.{lists_equiv};
    ghost use Rattle.std.specs.Cmp.{nat_eq_equiv};

    ghost eq = { bytes_eq };

    ghost laws = { partial_equiv_from_equiv (lists_equiv nat_eq_equiv) };

    fn eq(&self, other: &Self) -> bool {
        self.bytes.as_slice() == other.bytes.as_slice()
    }
}

/// The value of a row's cell.
#[derive(Debug, Drop)]
pub enum Value {
    /// A signed integer of 64 bits.
    Int(i64),
    /// A text.
    Text(Text),
}

impl Value {
    /// The value, borrowed.
    pub fn lend(&self) -> ValueRef<'_>
        ensures { value_lent result ≡ self.now }
    {
        match self {
            Value::Int(number) => ValueRef::Int(*number),
            Value::Text(text) => ValueRef::Text(text.as_bytes()),
        }
    }
}

impl PartialEq for Value {
    ghost use Rattle.djq_model.specs.Data.{value_eq};
    ghost use Rattle.djq_model.specs.Equality.{value_eq_laws};

    ghost eq = { value_eq };

    ghost laws = { value_eq_laws };

    fn eq(&self, other: &Self) -> bool {
        match (self, other) {
            (Value::Int(number), Value::Int(other)) => *number == *other,
            (Value::Text(text), Value::Text(other)) => text == other,
            _ => false,
        }
    }
}

/// A row of a relation, or any other tuple of values.
pub type Row = Sequence<Value>;

/// The rows of a relation, in the order in which they are stored.
pub type Rows = Sequence<Row>;
