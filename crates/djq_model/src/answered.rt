ghost use Rattle.std.specs.Prelude.{◌≡◌, ◌<◌, Some, length, slice_get};
ghost use Rattle.djq_model.specs.ValueRef.{value_lent};

use crate::value::Row;
use crate::value_ref::ValueRef;

/// A tuple whose values are borrowed one at a time from their storage: an answer is read through it
/// without being built.
pub trait Answered {
    ghost use Rattle.std.specs.Prelude.{◌≡◌, ◌<◌, Some, length, slice_get};
    ghost use Rattle.djq_model.specs.Data.{Tuple};
    ghost use Rattle.djq_model.specs.ValueRef.{value_lent};

    // The tuple of its values.
    ghost values: { Self → Tuple };

    /// How many values it has.
    fn len(&self) -> usize
        ensures { result ≡ length (values self.now) };

    /// The value at a place.
    fn value(&self, at: usize) -> ValueRef<'_>
        requires { at < length (values self.now) }
        ensures { slice_get (values self.now) at ≡ Some (value_lent result) };
}

impl Answered for Row {
    ghost values = { λ row. row };

    fn len(&self) -> usize {
        self.len()
    }

    fn value(&self, at: usize) -> ValueRef<'_> {
        self.as_slice()[at].lend()
    }
}
