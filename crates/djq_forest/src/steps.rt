//! The steps of a change: an entry is updated as another one becomes live or ceases to be.

ghost use Rattle.std.specs.Prelude.{◌≡◌, ◌+◌, ◌-◌, ◌<◌, ◌==◌, ◌&&◌, ℕ, true, false, List, ◌∷◌, ◌++◌, length};
ghost use Rattle.djq_arena.specs.Chains.{first_of};
ghost use Rattle.djq_hypergraph.specs.Hypergraph.{member};
ghost use Rattle.djq_forest.specs.declared.slots.TheConstants.{OUT};
ghost use Rattle.djq_forest.specs.Forest.{nth_edge, has_entry, missing_at, tie_of, list_of};
ghost use Rattle.djq_forest.specs.Invariants.{is_empty};
ghost use Rattle.djq_forest.specs.Pending.{comes_by_fed, comes_by_side, goes_by_fed, goes_by_side};
ghost use Rattle.djq_forest.specs.Steps.{forest_with, CanTellFed, CanUntellFed, CanTellSide, CanUntellSide};
ghost use Rattle.djq_forest.specs.Telling.{put_missing, put_list, target, tell_fed, untell_fed, tell_side, untell_side};
ghost use Rattle.djq_forest.specs.TieLists.{list_less};

use crate::edge::Edge;
use crate::knot::Knot;

/// Counts one unmet need less of the entry in a slot of a knot. Returns whether all are met.
fn lower_at(knots: &mut Vec<Knot>, at: usize, slot: u32) -> bool
    requires within { at < length knots.old.items }
    requires entry { has_entry knots.old.items at slot ≡ true }
    requires some { 0 < missing_at knots.old.items at slot }
    ensures lowered { knots.new.items ≡ put_missing knots.old.items at slot (missing_at knots.old.items at slot - 1) }
    ensures all { result ≡ (missing_at knots.old.items at slot - 1 == 0) }
{
    let knot = &mut knots[at];
    knot.lower_missing(slot)
}

/// Counts one unmet need more of the entry in a slot of a knot. Returns whether all were met before.
fn raise_at(knots: &mut Vec<Knot>, at: usize, slot: u32) -> bool
    requires within { at < length knots.old.items }
    requires entry { has_entry knots.old.items at slot ≡ true }
    requires few { missing_at knots.old.items at slot + 1 < OUT }
    ensures raised { knots.new.items ≡ put_missing knots.old.items at slot (missing_at knots.old.items at slot + 1) }
    ensures all { result ≡ (missing_at knots.old.items at slot == 0) }
{
    let knot = &mut knots[at];
    knot.raise_missing(slot)
}

/// Lists a slot by an edge. Returns whether none was listed.
fn enter_at(edges: &mut Vec<Edge>, at: usize, slot: u32) -> bool
    requires within { at < length edges.old.items }
    requires ties { slot < length (nth_edge edges.old.items at).ties }
    requires to { tie_of (nth_edge edges.old.items at) slot < length (nth_edge edges.old.items at).lists }
    requires out { member slot (list_of (nth_edge edges.old.items at) (tie_of (nth_edge edges.old.items at) slot)) ≡ false }
    ensures entered { edges.new.items ≡ put_list edges.old.items at (tie_of (nth_edge edges.old.items at) slot)
        (slot ∷ list_of (nth_edge edges.old.items at) (tie_of (nth_edge edges.old.items at) slot)) }
    ensures first { result ≡ is_empty (list_of (nth_edge edges.old.items at) (tie_of (nth_edge edges.old.items at) slot)) }
{
    let edge = &mut edges[at];
    edge.enter(slot)
}

/// Lists a slot by an edge no more. Returns whether none is listed now.
fn leave_at(edges: &mut Vec<Edge>, at: usize, slot: u32) -> bool
    requires within { at < length edges.old.items }
    requires listed { member slot (list_of (nth_edge edges.old.items at) (tie_of (nth_edge edges.old.items at) slot)) ≡ true }
    ensures left { edges.new.items ≡ put_list edges.old.items at (tie_of (nth_edge edges.old.items at) slot)
        (list_less slot (list_of (nth_edge edges.old.items at) (tie_of (nth_edge edges.old.items at) slot))) }
    ensures last { result ≡ is_empty (list_less slot
        (list_of (nth_edge edges.old.items at) (tie_of (nth_edge edges.old.items at) slot))) }
{
    let edge = &mut edges[at];
    edge.leave(slot)
}

/// The slot that a slot is tied to by an edge.
pub(crate) fn to_at(edges: &Vec<Edge>, at: usize, slot: u32) -> u32
    requires within { at < length edges.now.items }
    requires ties { slot < length (nth_edge edges.now.items at).ties }
    ensures { result ≡ tie_of (nth_edge edges.now.items at) slot }
{
    edges[at].to(slot)
}

/// Whether an edge feeds its small knot.
pub(crate) fn feeds_at(edges: &Vec<Edge>, at: usize) -> bool
    requires { at < length edges.now.items }
    ensures { result ≡ (nth_edge edges.now.items at).feeds }
{
    edges[at].feeds()
}

/// The small knot of an edge.
pub(crate) fn small_at(edges: &Vec<Edge>, at: usize) -> usize
    requires { at < length edges.now.items }
    ensures { result ≡ (nth_edge edges.now.items at).small }
{
    edges[at].small()
}

/// The first slot that an edge lists for a slot of its small knot, if there is one.
pub(crate) fn first_at(edges: &Vec<Edge>, at: usize, to: u32) -> Option<u32>
    requires within { at < length edges.now.items }
    requires lists { to < length (nth_edge edges.now.items at).lists }
    ensures { result ≡ first_of (list_of (nth_edge edges.now.items at) to) }
{
    edges[at].first(to)
}

/// The slot after a slot of an edge's list, if there is one.
pub(crate) fn next_at(edges: &Vec<Edge>, at: usize, slot: u32) -> Option<u32>
    requires within { at < length edges.now.items }
    requires listed { member slot (list_of (nth_edge edges.now.items at) (tie_of (nth_edge edges.now.items at) slot)) ≡ true }
    ensures { (xs ys : List ℕ) → list_of (nth_edge edges.now.items at) (tie_of (nth_edge edges.now.items at) slot)
        ≡ xs ++ slot ∷ ys → result ≡ first_of ys }
{
    edges[at].next(slot)
}

/// The big knot of an edge.
pub(crate) fn big_at(edges: &Vec<Edge>, at: usize) -> usize
    requires { at < length edges.now.items }
    ensures { result ≡ (nth_edge edges.now.items at).big }
{
    edges[at].big()
}

/// By an edge that feeds, propagates that the entry in a slot lives. Returns whether the one that it is tied to becomes live.
pub(crate) fn tell_fed(knots: &mut Vec<Knot>, edges: &mut Vec<Edge>, edge: usize, slot: u32) -> bool
    requires { CanTellFed (forest_with knots.old.items edges.old.items) edge slot }
    ensures told { forest_with knots.new.items edges.new.items ≡ tell_fed (forest_with knots.old.items edges.old.items) edge slot }
    ensures lives { result ≡ comes_by_fed (forest_with knots.old.items edges.old.items) edge slot }
{
    let to = to_at(edges, edge, slot);
    if !enter_at(edges, edge, slot) {
        return false;
    }
    let small = small_at(edges, edge);
    lower_at(knots, small, to)
}

/// By an edge that feeds, propagates that the entry in a slot lives no more. Returns whether the one that it is tied to
/// ceases to live.
pub(crate) fn untell_fed(
    knots: &mut Vec<Knot>,
    edges: &mut Vec<Edge>,
    edge: usize,
    slot: u32,
) -> bool
    requires { CanUntellFed (forest_with knots.old.items edges.old.items) edge slot }
    ensures told { forest_with knots.new.items edges.new.items ≡ untell_fed (forest_with knots.old.items edges.old.items) edge slot }
    ensures lived { result ≡ goes_by_fed (forest_with knots.old.items edges.old.items) edge slot }
{
    let to = to_at(edges, edge, slot);
    if !leave_at(edges, edge, slot) {
        return false;
    }
    let small = small_at(edges, edge);
    raise_at(knots, small, to)
}

/// Propagates to the entry in a slot that its side by an edge lives. Returns whether it becomes live.
pub(crate) fn tell_side(knots: &mut Vec<Knot>, edges: &Vec<Edge>, edge: usize, slot: u32) -> bool
    requires { CanTellSide (forest_with knots.old.items edges.now.items) edge slot }
    ensures told { forest_with knots.new.items edges.now.items ≡ tell_side (forest_with knots.old.items edges.now.items) edge slot }
    ensures lives { result ≡ comes_by_side (forest_with knots.old.items edges.now.items) edge slot }
{
    let big = big_at(edges, edge);
    lower_at(knots, big, slot)
}

/// Propagates to the entry in a slot that its side by an edge lives no more. Returns whether it ceases to live.
pub(crate) fn untell_side(knots: &mut Vec<Knot>, edges: &Vec<Edge>, edge: usize, slot: u32) -> bool
    requires { CanUntellSide (forest_with knots.old.items edges.now.items) edge slot }
    ensures told { forest_with knots.new.items edges.now.items
        ≡ untell_side (forest_with knots.old.items edges.now.items) edge slot }
    ensures lived { result ≡ goes_by_side (forest_with knots.old.items edges.now.items) edge slot }
{
    let big = big_at(edges, edge);
    raise_at(knots, big, slot)
}
