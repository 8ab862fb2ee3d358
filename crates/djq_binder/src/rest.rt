//! The rest of a query that isn't free-connex, as it is printed.
ghost use Rattle.std.specs.Prelude.{◌≡◌, IfOk, OnOk};
ghost use Rattle.djq_protocol.specs.Rest.{is_before, IsNamedRest};
ghost use Rattle.djq_protocol.specs.Variables.{variables_of};
ghost use Rattle.djq_model.specs.declared.query.Query.{Query};
ghost use Rattle.djq_query.specs.Numbered.{labels};
ghost use Rattle.djq_binder.specs.Ordering.{with_edge, in_order, IsPlaceFor};

use crate::names::variable_names;
use djq_hypergraph::{Edges, VarSet};
use djq_model::NoMem;
use djq_protocol::NamedRest;
use djq_query::Variable;
use std::alloc::Global;

/// Whether an edge precedes another one in lexical order.
fn is_before(edge: VarSet, other: VarSet) -> bool
    ensures { result ≡ is_before edge other }
{
    let mut edge = edge;
    let mut other = other;
    'variables: while let Some(first) = edge.pop() {
        match other.pop() {
            None => return false,
            Some(second) => {
                if first != second {
                    return first < second;
                }
            }
        }
    }
    !other.is_empty()
}

/// The place of the first edge that doesn't precede this one, past the end if there is none.
fn place_for(edges: &[VarSet], edge: VarSet) -> usize
    ensures { IsPlaceFor edges.now edge result }
{
    for at in 0..edges.len() {
        if !is_before(edges[at], edge) {
            return at;
        }
    }
    edges.len()
}

/// Puts an edge among edges in lexical order, if it isn't one of them.
fn put_edge(edges: &mut Vec<VarSet>, edge: VarSet) -> Result<(), NoMem>
    ensures { OnOk result (edges.new.items ≡ with_edge edge edges.old.items) }
{
    let at = place_for(edges, edge);
    if at == edges.len() || is_before(edge, edges[at]) {
        edges.insert(at, edge)?;
    }
    Ok(())
}

/// Edges in lexical order, each once.
fn in_order(alloc: Global, edges: &Edges) -> Result<Edges, NoMem>
    ensures { IfOk result (λ sorted. sorted ≡ in_order edges.now) }
{
    let edges = edges.as_slice();
    let mut sorted = Vec::new(alloc);
    'edges: for i in 0..edges.len() {
        put_edge(&mut sorted, edges[i])?;
    }
    Ok(Edges::from_sets(sorted))
}

/// A rest of a query's reduction, with the names of the query's variables.
pub(crate) fn name_rest(
    alloc: Global,
    variables: &[Variable],
    rest: &Edges,
) -> Result<NamedRest, NoMem>
    ensures { IfOk result (λ named. (q : Query) → labels variables.now ≡ variables_of q.atoms
        → IsNamedRest q rest.now named) }
{
    let edges = in_order(alloc, rest)?;
    let names = variable_names(alloc, variables)?;
    Ok(NamedRest { edges, names })
}
