//! Unions in their slots, found by name.
ghost use Rattle.std.specs.Prelude.{◌≡◌, ⊤, Some, IsSomeAnd, position};
ghost use Rattle.djq_store.specs.Finding.{union_is_named};
ghost use Rattle.djq_store.specs.Places.{joined_at};

use crate::joined::Joined;
use djq_model::Name;

/// Whether a slot has the union of a name.
fn is_named(slot: &Option<Joined>, name: &Name) -> bool
    ensures { result ≡ union_is_named name.now slot.now }
{
    match slot {
        Some(joined) => joined.union.name() == *name,
        None => false,
    }
}

/// The slot of the union of a name.
pub fn find_union(unions: &[Option<Joined>], name: &Name) -> Option<usize>
    ensures { result ≡ position (union_is_named name.now) unions.now }
{
    unions.iter().position(|slot| is_named(slot, name))
}

/// The union in a slot.
pub fn joined_in(unions: &[Option<Joined>], slot: usize) -> &Joined
    requires { IsSomeAnd (joined_at unions.now slot) (λ j. ⊤) }
    ensures { joined_at unions.now slot ≡ Some result.now }
{
    match &unions[slot] {
        Some(joined) => joined,
        None => unreachable!(),
    }
}
