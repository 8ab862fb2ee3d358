ghost use Rattle.std.specs.Prelude.{◌≡◌, ◌<◌, ◌≤◌, length, IsTrue};

use std::marker::Model;

/// The most bytes that a name has.
pub const NAME_BYTES: usize = 32;

/// The name of a relation, a query, a cursor or a variable: at most 32 bytes, held inline.
/// Contracts see the list of its bytes.
#[derive(Clone, Copy, Debug)]
pub struct Name {
    // zeros follow the name, so that a list of bytes is the name of one value alone
    bytes: [u8; NAME_BYTES],
    len: u8,
}

impl Model for Name {
    ghost use Rattle.std.specs.Prelude.{List, ℕ};

    ghost Value = { List ℕ };

    ghost use Rattle.std.specs.Prelude.{◌≡◌, ◌≤◌, take};
    ghost use Rattle.djq_model.specs.Padded.{zeros_after, padded, padded_back};
    ghost use Rattle.djq_model.specs.declared.name.TheConstants.{NAME_BYTES};

    ghost view = { λ n. take n.len n.bytes };

    ghost invariant = { λ n. (n.len ≤ NAME_BYTES) × (n.bytes ≡ zeros_after (take n.len n.bytes)) };

    ghost inverse = { λ xs. padded xs };

    ghost inverse_ok = { λ a h. padded_back a h };
}

impl Name {
    /// The name of these bytes, of which there are at most 32.
    pub fn new(from: &[u8]) -> Self
        requires { length from.now ≤ NAME_BYTES }
        ensures { result ≡ from.now }
    {
        let mut bytes = [0; NAME_BYTES];
        let count = from.len();
        bytes[..count].copy_from_slice(from);
        Name {
            bytes,
            len: count as u8,
        }
    }

    /// The number of its bytes.
    pub fn len(&self) -> usize
        ensures value { result ≡ length self.now }
        ensures short { result ≤ NAME_BYTES }
    {
        self.len as usize
    }

    /// The bytes of the name.
    pub fn as_bytes(&self) -> &[u8]
        ensures bytes { result.now ≡ self.now }
        ensures short { length result.now ≤ NAME_BYTES }
    {
        &self.bytes[..self.len as usize]
    }
}

impl PartialEq for Name {
    ghost use Rattle.djq_model.specs.Data.{bytes_eq};
    ghost use Rattle.std.specs.Cmp.{nat_eq_equiv, partial_equiv_from_equiv};
    ghost use Rattle.std.specs.Cmp.Lexicographic.{lists_equiv};

    ghost eq = { bytes_eq };

    ghost laws = { partial_equiv_from_equiv (lists_equiv nat_eq_equiv) };

    fn eq(&self, other: &Self) -> bool {
        self.as_bytes() == other.as_bytes()
    }
}
