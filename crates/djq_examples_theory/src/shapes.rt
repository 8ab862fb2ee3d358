//! Sets of variables and lists of edges, from the variables' numbers.

use djq_hypergraph::{Edges, VARIABLES, VarSet};
use std::alloc::{AllocError, Global};

/// The set of these variables.
pub(crate) fn set_of(variables: &[usize]) -> VarSet {
    let mut set = VarSet::new();
    for variable in variables {
        if *variable < VARIABLES {
            set = set.insert(*variable);
        }
    }
    set
}

/// The edges with these variables.
pub(crate) fn edges_of(alloc: Global, rows: &[&[usize]]) -> Result<Edges, AllocError> {
    let mut edges = Edges::new(alloc);
    for row in rows {
        edges.push(set_of(row))?;
    }
    Ok(edges)
}
