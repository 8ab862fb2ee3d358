ghost use Rattle.std.specs.Prelude.{◌≡◌, ◌<◌, None, Some};

use std::marker::Model;

/// The most slots: the highest number of four bytes is no slot's, and means none.
pub const SLOTS: usize = 4_294_967_295;

/// A slot's number or none, in four bytes.
#[derive(Clone, Copy)]
pub struct Link {
    slot: u32,
}

impl Model for Link {
    ghost use Rattle.std.specs.Prelude.{Option, ℕ};

    ghost Value = { Option ℕ };

    ghost use Rattle.djq_arena.specs.Link.{link_number, number, shown_back};

    ghost view = { λ l. link_number l.slot };

    ghost inverse = { λ o. record { slot = number o } };

    ghost inverse_ok = { λ l h. shown_back l };
}

impl Link {
    /// The highest number isn't a slot's: it means none.
    const NONE: u32 = u32::MAX;

    /// No slot.
    pub fn none() -> Link
        ensures { result ≡ None }
    {
        Link { slot: Self::NONE }
    }

    /// This slot.
    pub fn to(slot: u32) -> Link
        requires { slot < SLOTS }
        ensures { result ≡ Some slot }
    {
        Link { slot }
    }

    /// The slot, if any.
    pub fn get(self) -> Option<u32>
        ensures { result ≡ self }
    {
        if self.slot == Self::NONE {
            None
        } else {
            Some(self.slot)
        }
    }
}
