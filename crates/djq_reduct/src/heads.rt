ghost use Rattle.std.specs.Prelude.{◌≡◌, length, IfOk};
ghost use Rattle.djq_reduct.specs.Heads.{head_columns, head_places};

use crate::columns::{column_of, columns_of};
use djq_hypergraph::{VARIABLES, VarSet};
use djq_tree::Tree;
use std::alloc::{AllocError, Global};
use std::marker::Model;

/// The places of the variables of a node's label in an answer, in their order.
#[derive(Drop)]
pub(crate) struct HeadColumns {
    columns: Vec<usize>,
}

impl Model for HeadColumns {
    ghost use Rattle.std.specs.Prelude.{List, ℕ};

    ghost Value = { List ℕ };

    ghost view = { λ h. h.columns.items };
}

impl HeadColumns {
    /// The columns.
    pub(crate) fn as_slice(&self) -> &[usize]
        ensures { result.now ≡ self.now }
    {
        &self.columns
    }
}

/// These columns for each node of a tree.
pub(crate) fn head_columns(alloc: Global, tree: &Tree) -> Result<Vec<HeadColumns>, AllocError>
    ensures { IfOk result (λ v. v.items ≡ head_columns tree.now (length tree.now.nodes)) }
{
    let head = tree.head();
    let mut all = Vec::new(alloc);
    for node in 0..tree.len() {
        let columns = columns_of(alloc, head, tree.label(node))?;
        all.push(HeadColumns { columns })?;
    }
    Ok(all)
}

/// For each variable that there may be, its place in a head.
pub(crate) fn head_places(alloc: Global, head: VarSet) -> Result<Vec<usize>, AllocError>
    ensures { IfOk result (λ v. v.items ≡ head_places head VARIABLES) }
{
    let mut places = Vec::new(alloc);
    for variable in 0..VARIABLES {
        places.push(column_of(head, variable))?;
    }
    Ok(places)
}
