//! Room for entries: slots of knots, and places along their edges.

ghost use Rattle.std.specs.Prelude.{◌≡◌, ◌<◌, ◌≤◌, ℕ, true, false, length, OnOk};
ghost use Rattle.djq_arena.specs.declared.link.TheConstants.{SLOTS};
ghost use Rattle.djq_forest.specs.Forest.{nth_knot, nth_edge};
ghost use Rattle.djq_forest.specs.Index.{HasFreeSlot, IsWanted};
ghost use Rattle.djq_forest.specs.KnotSlots.{knot_slots, put_slots};
ghost use Rattle.djq_forest.specs.Room.{IsRoomierEdge, AreRoomierKnots, AreRoomierEdges, HasPlacesFor, HavePlacesFor};
ghost use Rattle.djq_forest.specs.Room.{HasRoomAsView, HaveRoomAsViews, HasRoomFor};
ghost use Rattle.djq_forest.specs.Shape.{AreAlong};
ghost use Rattle.djq_forest.specs.SlotEntries.{with_slots};

use crate::edge::Edge;
use crate::knot::Knot;
use std::alloc::{AllocError, Global};

/// Makes places along an edge for so many slots of a knot, if that is its big one.
fn grow_big(edge: &mut Edge, knot: usize, count: usize) -> Result<(), AllocError>
    requires { count ≤ SLOTS }
    ensures roomier { IsRoomierEdge edge.old edge.new }
    ensures places { OnOk result (edge.new.big ≡ knot → count ≤ length edge.new.ties) }
{
    if edge.big() != knot {
        return Ok(());
    }
    edge.grow_ties(count)
}

/// The same, if that is its small one.
fn grow_small(edge: &mut Edge, knot: usize, count: usize) -> Result<(), AllocError>
    ensures roomier { IsRoomierEdge edge.old edge.new }
    ensures places { OnOk result (edge.new.small ≡ knot → count ≤ length edge.new.lists) }
{
    if edge.small() != knot {
        return Ok(());
    }
    edge.grow_lists(count)
}

/// Makes places along an edge for so many slots of a knot. It fails only out of memory.
fn grow_along(edge: &mut Edge, knot: usize, count: usize) -> Result<(), AllocError>
    requires { count ≤ SLOTS }
    ensures roomier { IsRoomierEdge edge.old edge.new }
    ensures places { OnOk result (HasPlacesFor knot count edge.new) }
{
    grow_big(edge, knot, count)?;
    grow_small(edge, knot, count)
}

/// Makes places along all edges for so many slots of a knot. It fails only out of memory.
fn grow_edges(edges: &mut Vec<Edge>, knot: usize, count: usize) -> Result<(), AllocError>
    requires { count ≤ SLOTS }
    ensures roomier { AreRoomierEdges edges.old.items edges.new.items }
    ensures places { OnOk result (HavePlacesFor knot count edges.new.items (length edges.new.items)) }
{
    for at in 0..edges.len() {
        let edge = &mut edges[at];
        grow_along(edge, knot, count)?;
    }
    Ok(())
}

/// Makes so many slots of a knot, and places for them along its edges. It fails only out of memory.
fn grow_knot(
    alloc: Global,
    knots: &mut Vec<Knot>,
    edges: &mut Vec<Edge>,
    at: usize,
    count: usize,
) -> Result<(), AllocError>
    requires within { at < length knots.old.items }
    requires along { AreAlong knots.old.items edges.old.items }
    requires few { count ≤ SLOTS }
    requires more { length (nth_knot knots.old.items at).tuples ≤ count }
    requires wanted { (nth_knot knots.old.items at).leaf ≡ false → IsWanted (nth_knot knots.old.items at).tuples count }
    ensures knots { AreRoomierKnots knots.old.items knots.new.items }
    ensures edges { AreRoomierEdges edges.old.items edges.new.items }
    ensures along { AreAlong knots.new.items edges.new.items }
    ensures grown { OnOk result (nth_knot knots.new.items at
        ≡ put_slots (nth_knot knots.old.items at) (with_slots (knot_slots (nth_knot knots.old.items at)) count)) }
{
    grow_edges(edges, at, count)?;
    let knot = &mut knots[at];
    knot.grow(alloc, count)
}

/// Makes sure that a knot has a free slot, if it is a view. It fails only out of memory, or if there can't be more slots.
fn reserve_view(
    alloc: Global,
    knots: &mut Vec<Knot>,
    edges: &mut Vec<Edge>,
    at: usize,
) -> Result<(), AllocError>
    requires within { at < length knots.old.items }
    requires along { AreAlong knots.old.items edges.old.items }
    ensures knots { AreRoomierKnots knots.old.items knots.new.items }
    ensures edges { AreRoomierEdges edges.old.items edges.new.items }
    ensures along { AreAlong knots.new.items edges.new.items }
    ensures room { OnOk result (HasRoomAsView (nth_knot knots.new.items at)) }
{
    let knot = &knots[at];
    if knot.is_leaf() {
        return Ok(());
    }
    let count = knot.wanted()?;
    if count == knot.len() {
        return Ok(());
    }
    grow_knot(alloc, knots, edges, at, count)
}

/// Makes sure that each view has a free slot. It fails only out of memory, or if there can't be more slots.
fn reserve_views(
    alloc: Global,
    knots: &mut Vec<Knot>,
    edges: &mut Vec<Edge>,
) -> Result<(), AllocError>
    requires { AreAlong knots.old.items edges.old.items }
    ensures knots { AreRoomierKnots knots.old.items knots.new.items }
    ensures edges { AreRoomierEdges edges.old.items edges.new.items }
    ensures along { AreAlong knots.new.items edges.new.items }
    ensures room { OnOk result (HaveRoomAsViews knots.new.items (length knots.new.items)) }
{
    for at in 0..knots.len() {
        reserve_view(alloc, knots, edges, at)?;
    }
    Ok(())
}

/// Makes sure that a leaf has this slot. It fails only out of memory, or if there can't be so many slots.
fn reserve_leaf(
    alloc: Global,
    knots: &mut Vec<Knot>,
    edges: &mut Vec<Edge>,
    leaf: usize,
    slot: u32,
) -> Result<(), AllocError>
    requires within { leaf < length knots.old.items }
    requires is_leaf { (nth_knot knots.old.items leaf).leaf ≡ true }
    requires along { AreAlong knots.old.items edges.old.items }
    ensures knots { AreRoomierKnots knots.old.items knots.new.items }
    ensures edges { AreRoomierEdges edges.old.items edges.new.items }
    ensures along { AreAlong knots.new.items edges.new.items }
    ensures room { OnOk result (slot < length (nth_knot knots.new.items leaf).tuples) }
{
    let knot = &knots[leaf];
    if (slot as usize) < knot.len() {
        return Ok(());
    }
    let count = knot.wanted_for(slot)?;
    grow_knot(alloc, knots, edges, leaf, count)
}

/// Makes sure that there is room for a tuple of a leaf's row in a slot, and for an entry of each view. It fails only out
/// of memory, or if there can't be more slots.
pub(crate) fn reserve(
    alloc: Global,
    knots: &mut Vec<Knot>,
    edges: &mut Vec<Edge>,
    leaf: usize,
    slot: u32,
) -> Result<(), AllocError>
    requires is_leaf { (nth_knot knots.old.items leaf).leaf ≡ true }
    requires along { AreAlong knots.old.items edges.old.items }
    ensures knots { AreRoomierKnots knots.old.items knots.new.items }
    ensures edges { AreRoomierEdges edges.old.items edges.new.items }
    ensures along { AreAlong knots.new.items edges.new.items }
    ensures room { OnOk result (HasRoomFor leaf slot knots.new.items) }
{
    reserve_leaf(alloc, knots, edges, leaf, slot)?;
    reserve_views(alloc, knots, edges)
}
