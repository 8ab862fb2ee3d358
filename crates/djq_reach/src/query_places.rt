ghost use Rattle.std.specs.Prelude.{◌≡◌, [], ◌∷◌, ◌++◌, ◌<◌, length, remove, OnOk, OnErr, slice_get, Some};

use djq_model::NoMem;
use smallvec::SmallVec;
use std::alloc::Global;
use std::marker::Model;

/// Places of queries, in order of registration: up to four of them inline. Contracts see a list.
#[derive(Debug, Drop)]
pub struct QueryPlaces {
    places: SmallVec<usize, 4>,
}

impl Model for QueryPlaces {
    ghost use Rattle.std.specs.Prelude.{List, ℕ};

    ghost Value = { List ℕ };

    ghost view = { λ p. p.places.items };
}

impl QueryPlaces {
    /// No place. It allocates nothing.
    pub fn new(alloc: Global) -> Self
        ensures { result ≡ [] }
    {
        QueryPlaces {
            places: SmallVec::new(alloc),
        }
    }

    /// How many there are.
    pub fn len(&self) -> usize
        ensures { result ≡ length self.now }
    {
        self.places.len()
    }

    /// The places.
    pub fn as_slice(&self) -> &[usize]
        ensures { result.now ≡ self.now }
    {
        self.places.as_slice()
    }

    /// Appends a place.
    ///
    /// # Errors
    ///
    /// `NoMem` out of memory; nothing has changed.
    pub fn push(&mut self, place: usize) -> Result<(), NoMem>
        ensures ok { OnOk result (self.new ≡ self.old ++ place ∷ []) }
        ensures err { OnErr result (self.new ≡ self.old) }
    {
        self.places.push(place)?;
        Ok(())
    }

    /// Removes the place at an index. Those after it move one to the front.
    pub fn remove(&mut self, at: usize) -> usize
        requires { at < length self.old }
        ensures item { slice_get self.old at ≡ Some result }
        ensures others { self.new ≡ remove self.old at }
    {
        self.places.remove(at)
    }
}
