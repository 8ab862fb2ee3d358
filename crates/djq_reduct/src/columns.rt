ghost use Rattle.std.specs.Prelude.{◌≡◌, ◌<◌, length, IfOk};
ghost use Rattle.djq_reduct.specs.Columns.{column, columns};
ghost use Rattle.djq_reduct.specs.Tables.{empty_table};

use djq_hypergraph::VarSet;
use djq_index::Table;
use djq_tree::Tree;
use std::alloc::{AllocError, Global};

/// The place of a variable among those of a label; if it isn't there, how many there are.
pub fn column_of(label: VarSet, variable: usize) -> usize
    ensures { result ≡ column label variable }
{
    let mut rest = label;
    for column in 0..label.len() {
        if rest.pop() == Some(variable) {
            return column;
        }
    }
    label.len()
}

/// The places of a key's variables in a label.
pub(crate) fn columns_of(
    alloc: Global,
    label: VarSet,
    key: VarSet,
) -> Result<Vec<usize>, AllocError>
    ensures { IfOk result (λ v. v.items ≡ columns label key) }
{
    let mut columns = Vec::new(alloc);
    let mut rest = key;
    while let Some(variable) = rest.pop() {
        columns.push(column_of(label, variable))?;
    }
    Ok(columns)
}

/// The table of a node while it has no tuple.
pub(crate) fn empty_table(alloc: Global, tree: &Tree, node: usize) -> Result<Table, AllocError>
    requires { node < length tree.now.nodes }
    ensures { IfOk result (λ t. t ≡ empty_table tree.now node) }
{
    let label = tree.label(node);
    let columns = columns_of(alloc, label, tree.key(node))?;
    Table::new(alloc, label.len(), &columns)
}
