//! A list of calls that only contracts see.
ghost use Rattle.std.specs.Prelude.{◌≡◌, List, [], ◌∷◌, ◌++◌};
ghost use Rattle.std.specs.Borrow.{ftrue};
ghost use Rattle.djq_system.specs.Notes.{Noted};

use std::fmt::{self, Debug, Formatter};
use std::marker::{Model, PhantomData};

/// The calls so far with their answers, which use no bytes: they exist in the proofs alone.
#[derive(Drop)]
pub struct Notes {
    marker: PhantomData<u8>,
    pub ghost calls: { List Noted },
}

impl Model for Notes {
    ghost also_owns = { λ _. ftrue };
}

impl Debug for Notes {
    fn fmt<W: fmt::Write>(&self, f: &mut Formatter<W>) -> fmt::Result {
        f.write_str("Notes")
    }
}

impl Notes {
    /// No calls.
    pub(crate) fn new() -> Self
        ensures { result.calls ≡ [] }
    {
        Notes {
            marker: PhantomData,
        }
    }

    /// Adds a call by its numbers and its bytes. At run time it does nothing.
    #[inline(always)]
    pub(crate) fn note(&mut self, _numbers: &[u64], _bytes: &[u8])
        ensures { self.new.calls ≡ self.old.calls ++ (_numbers.now, _bytes.now) ∷ [] }
    {}
}
