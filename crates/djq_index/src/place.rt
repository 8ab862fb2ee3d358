ghost use Rattle.std.specs.Prelude.{◌≡◌};

/// The position of a tuple in a table. It stays valid until that tuple is removed.
///
/// The default one fills room for places, and no table is asked about it.
#[derive(Clone, Copy, PartialEq, Eq, Debug, Default)]
pub struct Place {
    slot: u32,
}

impl Place {
    /// The place of a slot.
    pub(crate) fn new(slot: u32) -> Place
        ensures { result ≡ record { slot = slot } }
    {
        Place { slot }
    }

    /// Its slot.
    pub(crate) fn slot(self) -> u32
        ensures { result ≡ self.slot }
    {
        self.slot
    }
}
