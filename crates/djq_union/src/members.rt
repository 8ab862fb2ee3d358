use crate::listing::Listing;

/// The members of a union, in its order.
pub trait Members {
    ghost use Rattle.std.specs.Prelude.{◌≡◌, ℕ, ◌<◌, ◌≤◌, List, length, Option, Some};
    ghost use Rattle.std.specs.List.{slice_get};

    /// What lists the answers of one member.
    type Member: Listing;

    /// The members.
    ghost members: { Self → List Self.Member };

    /// What a look at them asks for.
    ghost sound: { Self → Type 0 };

    /// How many there are, at most eight.
    fn count(&self) -> usize
        requires { sound self.now }
        ensures count { result ≡ length (members self.now) }
        ensures few { result ≤ 8 };

    /// The member at a place.
    fn member(&self, i: usize) -> &Self::Member
        requires sound { sound self.now }
        requires within { i < length (members self.now) }
        ensures { slice_get (members self.now) i ≡ Some result.now };
}
