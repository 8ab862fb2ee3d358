//! Why no use of a text is added.
use std::alloc::AllocError;
use thiserror::Error;

/// Why no use of a text is added.
#[derive(Clone, Copy, Debug, PartialEq, Eq, Error)]
pub enum TextsRefusal {
    /// The text isn't in use, and as many texts are as there may be.
    #[error("too many texts")]
    Full,
    /// Out of memory.
    #[error("out of memory")]
    NoMem,
}

impl From<AllocError> for TextsRefusal {
    ghost use Rattle.std.specs.Prelude.{◌≡◌};
    ghost use Rattle.djq_texts.specs.declared.refusal.TextsRefusal.TheVariants as refusal;

    ghost from_gives = { λ _ r. r ≡ refusal.NoMem };

    fn from(_error: AllocError) -> TextsRefusal {
        TextsRefusal::NoMem
    }
}
