//! Places that are left out of lists, and whether a union needs the query in one.
ghost use Rattle.std.specs.Prelude.{◌≡◌, vec_capacity};
ghost use Rattle.std.specs.List.{list_any};
ghost use Rattle.djq_engine.specs.Places.{places_without};
ghost use Rattle.djq_store.specs.Finding.{has_member};

use crate::joined::Joined;

/// Whether a slot has a union with the query in a place as a member.
fn has_member(slot: &Option<Joined>, at: usize) -> bool
    ensures { result ≡ has_member at slot.now }
{
    match slot {
        Some(joined) => joined.union.members().contains(&at),
        None => false,
    }
}

/// Whether the query in a place is a member of a union.
pub fn is_member(unions: &[Option<Joined>], at: usize) -> bool
    ensures { result ≡ list_any (has_member at) unions.now }
{
    unions.iter().any(|slot| has_member(slot, at))
}

/// Removes a place from a list of places.
pub fn leave_out(places: &mut Vec<usize>, at: usize)
    ensures items { places.new.items ≡ places_without at places.old.items }
    ensures room { vec_capacity places.new ≡ vec_capacity places.old }
{
    places.retain(|place| *place != at);
}
