ghost use Rattle.std.specs.Prelude.{◌≡◌, ◌↔◌, true};
ghost use Rattle.djq_reduct.specs.Reducts.{IsNarrow};

use djq_index::CELLS;
use djq_tree::Tree;

/// Whether no label of a tree, and no head, has more variables than a tuple has room for.
pub fn is_narrow(tree: &Tree) -> bool
    ensures { result ≡ true ↔ IsNarrow tree.now }
{
    for node in 0..tree.len() {
        if tree.label(node).len() > CELLS {
            return false;
        }
    }
    tree.head().len() <= CELLS
}
