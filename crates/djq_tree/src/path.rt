ghost use Rattle.std.specs.Prelude.{◌≡◌, ◌<◌, length};
ghost use Rattle.std.specs.Iterator.{YieldsFirst, item_count};
ghost use Rattle.djq_tree.specs.Tree.{IsRising, parent, path_of};

use crate::node::Node;
use std::marker::Model;

/// The nodes of a path from the current node to the root: an iterator that allocates nothing.
///
/// Contracts see the list of the nodes that are still to be returned. The search for the next one
/// continues through the nodes from the last one, so that a whole path reads each node once.
#[derive(Debug, Drop)]
pub struct Path<'a> {
    nodes: &'a [Node],
    next: Option<usize>,
}

impl<'a> Model for Path<'a> {
    ghost use Rattle.std.specs.Prelude.{List, ℕ};

    ghost Value = { List ℕ };

    ghost use Rattle.djq_tree.specs.Tree.{path_or_none, IsPlaced};

    ghost view = { λ p. path_or_none p.nodes.now p.next };

    ghost invariant = { λ p. IsPlaced p.nodes.now p.next };
}

impl<'a> Path<'a> {
    /// The path from a node.
    pub(crate) fn new(nodes: &'a [Node], from: usize) -> Path<'a>
        requires within { from < length nodes.now }
        requires rising { IsRising nodes.now }
        ensures { result ≡ path_of nodes.now from }
    {
        Path {
            nodes,
            next: Some(from),
        }
    }
}

impl<'a> Iterator for Path<'a> {
    type Item = usize;

    ghost next_gives = { YieldsFirst (λ rest. rest) };

    ghost remaining = { item_count (λ rest. rest) };

    fn next(&mut self) -> Option<usize> {
        let node = self.next?;
        self.next = parent_of(self.nodes, node);
        Some(node)
    }
}

/// The node that has a node as a child, which is searched for above it.
pub(crate) fn parent_of(nodes: &[Node], node: usize) -> Option<usize>
    requires within { node < length nodes.now }
    requires rising { IsRising nodes.now }
    ensures { result ≡ parent nodes.now node }
{
    for k in node + 1..nodes.len() {
        if nodes[k].has_child(node) {
            return Some(k);
        }
    }
    None
}
