ghost use Rattle.std.specs.Prelude.{◌≡◌};
ghost use Rattle.djq_tree.specs.Tree.{has_child};

/// A node of a generalised join tree. The children of a node have lower numbers than it.
#[derive(Clone, Copy, Debug, PartialEq, Eq)]
pub enum Node {
    /// An atom of the query.
    Leaf {
        /// The atom's number in the body, which is also the node's.
        atom: usize,
    },
    /// A projection of its child, on fewer variables.
    Trim {
        /// The child's number.
        child: usize,
    },
    /// The tuples of the guard that agree with one of the side.
    Meet {
        /// The number of the child that has the node's own variables.
        guard: usize,
        /// The number of the child whose variables are among them.
        side: usize,
    },
}

impl Node {
    /// Whether the node with a number is a child of this one.
    pub fn has_child(self, node: usize) -> bool
        ensures { result ≡ has_child self node }
    {
        match self {
            Node::Leaf { .. } => false,
            Node::Trim { child } => child == node,
            Node::Meet { guard, side } => guard == node || side == node,
        }
    }
}
