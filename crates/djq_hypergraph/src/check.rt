ghost use Rattle.std.specs.Prelude.{◌≡◌, ◌↔◌, ℕ, ◌<◌, ◌==◌, IsTrue, nat_lt, length, reverse};
ghost use Rattle.std.specs.List.{list_any};
ghost use Rattle.djq_hypergraph.specs.Hypergraph.{member, degree};
ghost use Rattle.djq_hypergraph.specs.JoinTree.{places, link_edges, IsJoinTree};
ghost use Rattle.djq_hypergraph.specs.Checking.{FitsTree};

use crate::edges::Edges;
use crate::join_tree::{JoinTree, Link};
use crate::var_set::VarSet;

/// Whether one of the links is of the edge at the position.
fn stands(links: &[Link], position: usize) -> bool
    ensures { result ≡ list_any (λ k. position == k.edge) links.now }
{
    links.iter().any(|link| position == link.edge)
}

/// Whether the link may follow the links before it, whose edges have the variables `seen`.
fn link_fits(edges: &[VarSet], before: &[Link], seen: VarSet, link: Link) -> bool
    requires below { (p : ℕ) → 0 < places p before.now → p < length edges.now }
    requires seen { (x : ℕ) → member x seen ≡ nat_lt 0 (degree x (link_edges edges.now before.now)) }
    ensures { IsTrue result ↔ FitsTree edges.now before.now link }
{
    if link.edge >= edges.len() {
        return false;
    }
    if stands(before, link.edge) {
        return false;
    }
    if before.is_empty() {
        return true;
    }
    if !stands(before, link.parent) {
        return false;
    }
    let shared = edges[link.edge].intersection(seen);
    shared.is_subset(edges[link.parent])
}

/// Whether the tree is a join tree of the edges: each edge occurs once in its order, and each but
/// the first has an earlier one as its parent. For each variable of an edge, one edge that has it,
/// and no other, is the first or has a parent without it.
///
/// Reads the links once: an edge may share with those before it only what its parent has. With m
/// edges it needs O(m^2) operations on words and allocates nothing.
pub fn check_join_tree(edges: &Edges, tree: &JoinTree) -> bool
    ensures { IsTrue result ↔ IsJoinTree edges.now (reverse tree.now) }
{
    let sets = edges.as_slice();
    let links = tree.as_slice();
    if links.len() != sets.len() {
        return false;
    }
    let mut seen = VarSet::new();
    'links: for i in 0..links.len() {
        let link = links[i];
        if !link_fits(sets, &links[..i], seen, link) {
            return false;
        }
        seen = seen.union(sets[link.edge]);
    }
    true
}
