use std::alloc::AllocError;
use thiserror::Error;

/// Why a text isn't made known.
#[derive(Clone, Copy, Debug, PartialEq, Eq, Error)]
pub enum InternRefusal {
    /// The text is unknown, and as many texts are known as there may be.
    #[error("too many texts")]
    Full,
    /// Out of memory.
    #[error("out of memory")]
    NoMem,
}

impl From<AllocError> for InternRefusal {
    ghost use Rattle.std.specs.Prelude.{◌≡◌};
    ghost use Rattle.djq_dictionary.specs.declared.refusal.InternRefusal.TheVariants as refusal;

    ghost from_gives = { λ _ r. r ≡ refusal.NoMem };

    fn from(_error: AllocError) -> InternRefusal {
        InternRefusal::NoMem
    }
}
