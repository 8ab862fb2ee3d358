ghost use Rattle.std.specs.Prelude.{◌≡◌, IfOk};
ghost use Rattle.djq_tree.specs.Counts.{is_trim};
ghost use Rattle.djq_tree.specs.Levels.{levels};

use djq_tree::{Node, Tree};
use std::alloc::{AllocError, Global};

/// Whether a node is a trim.
fn is_trim(node: Node) -> bool
    ensures { result ≡ is_trim node }
{
    match node {
        Node::Trim { .. } => true,
        _ => false,
    }
}

/// The levels of a listing, from the highest one on.
pub(crate) fn levels_of(alloc: Global, tree: &Tree) -> Result<Vec<usize>, AllocError>
    ensures { IfOk result (λ v. v.items ≡ levels tree.now) }
{
    let second_stage = tree.second_stage();
    let mut all = Vec::new(alloc);
    let mut at = tree.len();
    while second_stage < at {
        at -= 1;
        if is_trim(tree.node(at)) {
            all.push(at)?;
        }
    }
    Ok(all)
}
