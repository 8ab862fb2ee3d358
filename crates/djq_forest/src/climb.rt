//! What is propagated after an entry becomes live: up along edges that feed, and to all that hangs on a side.

ghost use Rattle.std.specs.Prelude.{◌≡◌, ◌<◌, ℕ, false, length, slice_index_or, Some, None, IfSome, MatchOption};
ghost use Rattle.djq_forest.specs.Forest.{nth_edge};
ghost use Rattle.djq_forest.specs.Invariants.{AreEntries};
ghost use Rattle.djq_forest.specs.Rising.{MayRise, AreUps, HasSameEntries, HasRisen, RisesWith, RiseStopsAt};
ghost use Rattle.djq_forest.specs.Steps.{forest_with};

use crate::edge::Edge;
use crate::knot::Knot;
use crate::steps::{big_at, feeds_at, first_at, next_at, small_at, tell_fed, tell_side, to_at};
use djq_arena::Link;

/// An entry at which the way up stops: its knot is a side by an edge.
#[derive(Clone, Copy)]
pub(crate) struct Stop {
    pub knot: usize,
    pub edge: usize,
    pub slot: u32,
}

/// The edge that leads up from a knot, if there is one.
fn up_from(ups: &Vec<Link>, knot: usize) -> Option<u32>
    requires { knot < length ups.now.items }
    ensures { result ≡ slice_index_or ups.now.items knot None }
{
    ups[knot].get()
}

/// Propagates along edges that feed that an entry became live, as long as entries become live by it. It stops at one whose
/// knot is a side, whose rise is left then.
pub(crate) fn climb(
    knots: &mut Vec<Knot>,
    edges: &mut Vec<Edge>,
    ups: &Vec<Link>,
    knot: usize,
    slot: u32,
) -> Option<Stop>
    requires entries { AreEntries (forest_with knots.old.items edges.old.items) }
    requires ups { AreUps ups.now.items (forest_with knots.old.items edges.old.items) }
    requires rise { MayRise (forest_with knots.old.items edges.old.items) knot slot }
    ensures same { HasSameEntries (forest_with knots.old.items edges.old.items) (forest_with knots.new.items edges.new.items) }
    ensures risen { MatchOption result
        (HasRisen (forest_with knots.old.items edges.old.items) (forest_with knots.new.items edges.new.items) knot slot)
        (λ stop. RisesWith (forest_with knots.old.items edges.old.items) (forest_with knots.new.items edges.new.items)
        knot slot stop.knot stop.slot) }
    ensures left { IfSome result (λ stop. RiseStopsAt (forest_with knots.old.items edges.old.items)
        (forest_with knots.new.items edges.new.items) knot stop.knot stop.edge stop.slot) }
{
    let up = match up_from(ups, knot) {
        None => return None,
        Some(edge) => edge as usize,
    };
    if !feeds_at(edges, up) {
        return Some(Stop {
            knot,
            edge: up,
            slot,
        });
    }
    let small = small_at(edges, up);
    let to = to_at(edges, up, slot);
    if !tell_fed(knots, edges, up, slot) {
        return None;
    }
    climb(knots, edges, ups, small, to)
}

/// Propagates to all that hangs on an entry that it became live. If that stops at a side, each entry that is tied to the
/// side is updated, and rises in its turn if it becomes live.
pub(crate) fn rise(
    knots: &mut Vec<Knot>,
    edges: &mut Vec<Edge>,
    ups: &Vec<Link>,
    knot: usize,
    slot: u32,
)
    requires entries { AreEntries (forest_with knots.old.items edges.old.items) }
    requires ups { AreUps ups.now.items (forest_with knots.old.items edges.old.items) }
    requires rise { MayRise (forest_with knots.old.items edges.old.items) knot slot }
    ensures { HasRisen (forest_with knots.old.items edges.old.items) (forest_with knots.new.items edges.new.items) knot slot }
{
    let stop = match climb(knots, edges, ups, knot, slot) {
        None => return,
        Some(stop) => stop,
    };
    let big = big_at(edges, stop.edge);
    let mut rest = first_at(edges, stop.edge, stop.slot);
    while let Some(tied) = rest {
        rest = next_at(edges, stop.edge, tied);
        if tell_side(knots, edges, stop.edge, tied) {
            rise(knots, edges, ups, big, tied);
        }
    }
}
