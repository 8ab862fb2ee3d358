ghost use Rattle.std.specs.Prelude.{◌≡◌, ◌↔◌, ℕ, ◌<◌, IsTrue, nat_lt};
ghost use Rattle.djq_hypergraph.specs.Hypergraph.{member, degree};
ghost use Rattle.djq_hypergraph.specs.Flat.{IsFlatAt, IsFlat};

use crate::edges::variables;
use crate::var_set::VarSet;

/// Whether the variable and any other are as in a flat query, given that `all` has the edges'
/// variables.
///
/// One pass over the edges compares it with all others at once. `near` has the variables of the
/// edges with it, and `far` those of the edges without it. `shared` has those that each edge with
/// it has.
fn is_flat_at(edges: &[VarSet], head: VarSet, all: VarSet, variable: usize) -> bool
    requires { (y : ℕ) → member y all ≡ nat_lt 0 (degree y edges.now) }
    ensures { IsTrue result ↔ IsFlatAt edges.now head variable }
{
    let mut shared = all;
    let mut near = VarSet::new();
    let mut far = VarSet::new();
    'edges: for i in 0..edges.len() {
        let edge = edges[i];
        if edge.contains(variable) {
            shared = shared.intersection(edge);
            near = near.union(edge);
        } else {
            far = far.union(edge);
        }
    }
    if !near.intersection(far).is_subset(shared) {
        return false;
    }
    if !head.contains(variable) {
        return true;
    }
    shared.intersection(far).is_subset(head)
}

/// Whether the query with these edges and this head is flat (q-hierarchical: Berkholz, Keppeler and
/// Schweikardt 2017). It is if and only if two conditions hold. Of any two variables all edges of
/// one have the other or no edge has both. A variable that has all edges of a head variable, and
/// further ones, is in the head.
///
/// Reads the edges once, and once more for each variable of an edge or of the head. It allocates
/// nothing.
pub fn is_flat(edges: &[VarSet], head: &VarSet) -> bool
    ensures { IsTrue result ↔ IsFlat edges.now head.now }
{
    let all = variables(edges);
    let mut rest = all.union(*head);
    while let Some(variable) = rest.pop() {
        if !is_flat_at(edges, *head, all, variable) {
            return false;
        }
    }
    true
}
