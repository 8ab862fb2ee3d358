ghost use Rattle.std.specs.Prelude.{◌≡◌, ◌<◌, ◌==◌, ◌++◌, ◌∷◌, [], length, OnOk, OnErr};

use std::alloc::{AllocError, Global};
use std::marker::Model;

/// An edge of a join tree, and its parent, both by their positions in the list of edges.
#[derive(Clone, Copy, Debug, PartialEq, Eq)]
pub struct Link {
    /// The edge's position.
    pub edge: usize,
    /// The parent's position. It isn't read in the first link.
    pub parent: usize,
}

/// A proposed join tree of a list of edges: the edges in an order, with a parent for each but the
/// first.
///
/// Contracts see the list of its links, the root's first.
#[derive(Debug, Drop)]
pub struct JoinTree {
    links: Vec<Link>,
}

impl Model for JoinTree {
    ghost use Rattle.std.specs.Prelude.{List};
    ghost use Rattle.djq_hypergraph.specs.declared.join_tree.Link.{Link};

    ghost Value = { List Link };

    ghost view = { λ t. t.links.items };
}

impl JoinTree {
    /// The tree of no edge, which allocates nothing.
    pub fn new(alloc: Global) -> JoinTree
        ensures { result ≡ [] }
    {
        JoinTree {
            links: Vec::new(alloc),
        }
    }

    /// Appends a link.
    pub fn push(&mut self, link: Link) -> Result<(), AllocError>
        ensures ok { OnOk result (self.new ≡ self.old ++ link ∷ []) }
        ensures err { OnErr result (self.new ≡ self.old) }
    {
        self.links.push(link)?;
        Ok(())
    }

    /// How many links there are.
    pub fn len(&self) -> usize
        ensures { result ≡ length self.now }
    {
        self.links.len()
    }

    /// Whether there is no link.
    pub fn is_empty(&self) -> bool
        ensures { result ≡ (length self.now == 0) }
    {
        self.links.is_empty()
    }

    /// The links, in order.
    pub fn as_slice(&self) -> &[Link]
        ensures { result.now ≡ self.now }
    {
        &self.links
    }
}
