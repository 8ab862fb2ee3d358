use djq_model::NoMem;
use std::alloc::AllocError;
use thiserror::Error;

/// Why a catalog doesn't accept a relation or a row.
#[derive(Clone, Copy, Debug, PartialEq, Eq, Error)]
pub enum RowsRefusal {
    /// A relation has the name.
    #[error("the name is taken")]
    NameTaken,
    /// There are as many relations, or as many rows of the relation, as there may be.
    #[error("too many relations or rows")]
    Full,
    /// Want of memory.
    #[error("out of memory")]
    NoMem,
}

impl From<NoMem> for RowsRefusal {
    ghost use Rattle.std.specs.Prelude.{◌≡◌};
    ghost use Rattle.djq_database.specs.declared.refusal.RowsRefusal.TheVariants as refusal;

    ghost from_gives = { λ _ r. r ≡ refusal.NoMem };

    fn from(_error: NoMem) -> RowsRefusal {
        RowsRefusal::NoMem
    }
}
