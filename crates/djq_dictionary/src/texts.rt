ghost use Rattle.std.specs.Prelude.{◌≡◌, ◌<◌, ◌≤◌, ◌++◌, ◌∷◌, [], length, slice_get, Some, OnOk};

use std::alloc::{AllocError, Global};
use std::marker::Model;

/// A list of texts whose bytes are in one buffer.
///
/// Contracts see the texts, and for how many bytes and how many texts there is room.
#[derive(Debug, Drop)]
pub(crate) struct Texts {
    bytes: Vec<u8>,
    ends: Vec<usize>,
}

impl Model for Texts {
    ghost use Rattle.djq_dictionary.specs.Buffer.{Shelf, pieces, IsCut};

    ghost Value = { Shelf };

    ghost use Rattle.std.specs.Prelude.{◌-◌, length, vec_len, vec_capacity};

    ghost view = { λ t. record {
      texts = pieces t.bytes.items 0 t.ends.items;
      room =
          vec_capacity t.bytes - vec_len t.bytes;
      places = vec_capacity t.ends - vec_len t.ends;
    } };

    ghost invariant = { λ t. IsCut 0 t.ends.items (length t.bytes.items) };
}

impl Texts {
    /// No text. Allocates nothing.
    pub(crate) fn new(alloc: Global) -> Texts
        ensures { result.texts ≡ [] }
    {
        Texts {
            bytes: Vec::new(alloc),
            ends: Vec::new(alloc),
        }
    }

    /// How many texts there are.
    pub(crate) fn len(&self) -> usize
        ensures { result ≡ length self.now.texts }
    {
        self.ends.len()
    }

    /// The text at a position.
    pub(crate) fn get(&self, position: usize) -> &[u8]
        requires { position < length self.now.texts }
        ensures { slice_get self.now.texts position ≡ Some result.now }
    {
        let start = start_of(&self.ends, position);
        &self.bytes[start..self.ends[position]]
    }

    /// Reserves room for one more text, of so many bytes.
    pub(crate) fn reserve(&mut self, bytes: usize) -> Result<(), AllocError>
        ensures kept { self.new.texts ≡ self.old.texts }
        ensures room { OnOk result (bytes ≤ self.new.room) }
        ensures place { OnOk result (0 < self.new.places) }
    {
        self.bytes.reserve(bytes)?;
        self.ends.reserve(1)?;
        Ok(())
    }

    /// Appends a text, in room that was reserved for it.
    pub(crate) fn push(&mut self, text: &[u8])
        requires room { length text.now ≤ self.old.room }
        requires place { 0 < self.old.places }
        ensures { self.new.texts ≡ self.old.texts ++ text.now ∷ [] }
    {
        let _ = self.bytes.extend_from_slice(text);
        let _ = self.ends.push(self.bytes.len());
    }
}

/// The start of a text in the buffer: the end of the one before it.
fn start_of(ends: &[usize], position: usize) -> usize
    requires { position < length ends.now }
    ensures { slice_get (0 ∷ ends.now) position ≡ Some result }
{
    if position == 0 { 0 } else { ends[position - 1] }
}
