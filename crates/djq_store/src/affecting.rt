//! What a change affects, in order of registration.
ghost use Rattle.std.specs.Prelude.{◌≡◌, ◌<◌, ◌≤◌, ℕ, false, All, filter, map, length, slice_index_or, vec_capacity};
ghost use Rattle.std.specs.List.{list_any};
ghost use Rattle.djq_protocol.specs.declared.limits.TheConstants.{QUERIES};
ghost use Rattle.djq_store.specs.Affecting.{is_reached_id, is_affected};

use crate::joined::Joined;
use djq_engine::Engine;
use djq_protocol::limits::QUERIES;

/// For each place whether the engine's last accepted change affects the query there.
fn reached_places(engine: &Engine) -> [bool; QUERIES]
    requires { All (λ id. id.at < QUERIES) engine.now.affected }
    ensures { (i : ℕ) → slice_index_or result i false ≡ is_reached_id engine.now.affected i }
{
    let mut reached = [false; QUERIES];
    for nth in 0..engine.affected_count() {
        reached[engine.affected(nth).at] = true;
    }
    reached
}

/// Whether it does in a place.
fn is_reached(reached: &[bool; QUERIES], place: usize) -> bool
    ensures { result ≡ slice_index_or reached.now place false }
{
    match reached.get(place) {
        Some(is) => *is,
        None => false,
    }
}

/// Whether it affects one of the queries in these places.
fn some_reached(reached: &[bool; QUERIES], places: &[usize]) -> bool
    ensures { result ≡ list_any (λ i. slice_index_or reached.now i false) places.now }
{
    places.iter().any(|place| is_reached(reached, *place))
}

/// Whether it affects what is registered in a place: a query, or a union of which it affects a member.
fn is_affected(reached: &[bool; QUERIES], unions: &[Option<Joined>], at: usize) -> bool
    ensures { result ≡ is_affected (λ i. slice_index_or reached.now i false) unions.now at }
{
    if at < QUERIES {
        return is_reached(reached, at);
    }
    match unions.get(at - QUERIES) {
        Some(Some(joined)) => some_reached(reached, joined.union.members()),
        _ => false,
    }
}

/// The affected are those of this order that the engine's last accepted change affects, and the unions of them.
pub fn affect(
    affected: &mut Vec<usize>,
    engine: &Engine,
    unions: &[Option<Joined>],
    order: &[usize],
)
    requires low { All (λ id. id.at < QUERIES) engine.now.affected }
    requires room { length order.now ≤ vec_capacity affected.old }
    ensures items { affected.new.items
        ≡ filter (is_affected (is_reached_id engine.now.affected) unions.now) order.now }
    ensures room { vec_capacity affected.old ≤ vec_capacity affected.new }
{
    let reached = reached_places(engine);
    affected.clear();
    for nth in 0..order.len() {
        if is_affected(&reached, unions, order[nth]) {
            affected.push_reserved(order[nth]);
        }
    }
}

/// If it affects no union, they are those of the engine.
pub fn affect_queries(affected: &mut Vec<usize>, engine: &Engine)
    requires { length engine.now.affected ≤ vec_capacity affected.old }
    ensures items { affected.new.items ≡ map (λ id. id.at) engine.now.affected }
    ensures room { vec_capacity affected.old ≤ vec_capacity affected.new }
{
    affected.clear();
    for nth in 0..engine.affected_count() {
        affected.push_reserved(engine.affected(nth).at);
    }
}
