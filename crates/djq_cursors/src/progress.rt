//! The progress of one cursor.
ghost use Rattle.std.specs.Prelude.{◌≡◌};
ghost use Rattle.djq_cursors.specs.Slots.{outdated_progress};

use djq_model::Name;

/// The progress of a cursor.
#[derive(Debug, Drop)]
pub enum Progress<C> {
    /// Its listing can continue.
    Open {
        /// The listing, on its way.
        cursor: C,
        /// Whether it was answered last that none is left.
        ended: bool,
    },
    /// Its answers have changed.
    Stale {
        /// The relation whose change made it stale.
        relation: Name,
        /// The number of that change.
        seq: u64,
    },
}

impl<C: Drop> Progress<C> {
    /// Makes a cursor stale that is open.
    pub(crate) fn outdate(&mut self, relation: Name, seq: u64)
        ensures { self.new ≡ outdated_progress relation seq self.old }
    {
        match self {
            Progress::Open { .. } => *self = Progress::Stale { relation, seq },
            Progress::Stale { .. } => {}
        }
    }
}
