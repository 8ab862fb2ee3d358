ghost use Rattle.std.specs.Prelude.{◌≡◌, ◌<◌, true, length, OnOk};
ghost use Rattle.djq_forest.specs.Forest.{nth_knot, nth_edge};
ghost use Rattle.djq_forest.specs.Reducts.{AreReducts};
ghost use Rattle.djq_forest.specs.Room.{IsRoomier, HasRoomFor};
ghost use Rattle.djq_forest.specs.Fold.{IsFoldOf};
ghost use Rattle.djq_forest.specs.Rising.{AreUps};
ghost use Rattle.djq_forest.specs.Shape.{IsShape};
ghost use Rattle.djq_forest.specs.TreeForest.{IsTreeForest, HasNoSlots, reducts_in};
ghost use Rattle.djq_tree.specs.Tree.{IsTree};

use crate::edge::Edge;
use crate::knot::Knot;
use crate::room;
use djq_arena::Link;
use djq_tree::Tree;
use std::alloc::{AllocError, Global};
use std::marker::Model;

/// The edges by which it is known which entries of a knot are tuples of a node.
#[derive(Drop)]
pub struct Needs {
    edges: Vec<usize>,
}

impl Model for Needs {
    ghost use Rattle.std.specs.Prelude.{List, ℕ};

    ghost Value = { List ℕ };

    ghost view = { λ n. n.edges.items };
}

impl Needs {
    /// These edges.
    pub fn new(edges: Vec<usize>) -> Needs
        ensures { result ≡ edges.items }
    {
        Needs { edges }
    }
}

/// The forest of a tree: for each leaf the tuples that rows give it, for each view its entries, and the ties between them.
/// It represents the tree's reducts.
#[derive(Drop)]
pub struct Forest {
    tree: Tree,
    knots: Vec<Knot>,
    edges: Vec<Edge>,
    // the number of the present change
    stamp: u32,
    // for each node of the tree its knot, a leaf's being its own, and what it needs
    node_knots: Vec<usize>,
    node_needs: Vec<Needs>,
    // for each knot the edge that leads up from it
    ups: Vec<Link>,
}

impl Model for Forest {
    ghost use Rattle.djq_forest.specs.TreeForest as spec;

    ghost Value = { spec.TreeForest };

    ghost view = { λ x. record {
      tree = x.tree;
      forest = record { knots = x.knots.items; edges = x.edges.items; stamp = x.stamp };
      fold = record { knots = x.node_knots.items; needs = x.node_needs.items };
    } };

    ghost invariant = { λ x. spec.IsForestWithUps x.ups.items (record {
      tree = x.tree;
      forest = record { knots = x.knots.items; edges = x.edges.items; stamp = x.stamp };
      fold = record { knots = x.node_knots.items; needs = x.node_needs.items };
    }) };
}

impl Forest {
    /// The forest of a tree before any row: these are its knots and edges, and how the tree's nodes are folded into them.
    pub(crate) fn of_parts(
        tree: Tree,
        knots: Vec<Knot>,
        edges: Vec<Edge>,
        ups: Vec<Link>,
        node_knots: Vec<usize>,
        node_needs: Vec<Needs>,
    ) -> Forest
        requires is_tree { IsTree tree }
        requires shape { IsShape knots.items edges.items }
        requires none { HasNoSlots (record { knots = knots.items; edges = edges.items; stamp = 0 }) }
        requires ups { AreUps ups.items (record { knots = knots.items; edges = edges.items; stamp = 0 }) }
        requires fold { IsFoldOf tree (record { knots = knots.items; edges = edges.items; stamp = 0 })
            (record { knots = node_knots.items; needs = node_needs.items }) }
        ensures { result ≡ record {
          tree = tree;
          forest = record { knots = knots.items; edges = edges.items; stamp = 0 };
          fold = record { knots = node_knots.items; needs = node_needs.items };
        } }
    {
        Forest {
            tree,
            knots,
            edges,
            stamp: 0,
            node_knots,
            node_needs,
            ups,
        }
    }

    /// What holds of it, and of the reducts that it represents. It does nothing.
    pub fn laws(&self)
        ensures sound { IsTreeForest self.now }
        ensures reducts { AreReducts (reducts_in self.now) }
    {
        let _ = &self.knots;
    }

    /// The tree.
    pub fn tree(&self) -> &Tree
        ensures { result.now ≡ self.now.tree }
    {
        &self.tree
    }

    /// A knot.
    pub fn knot(&self, knot: usize) -> &Knot
        requires { knot < length self.now.forest.knots }
        ensures { result.now ≡ nth_knot self.now.forest.knots knot }
    {
        &self.knots[knot]
    }

    /// An edge.
    pub fn edge(&self, edge: usize) -> &Edge
        requires { edge < length self.now.forest.edges }
        ensures { result.now ≡ nth_edge self.now.forest.edges edge }
    {
        &self.edges[edge]
    }

    /// Makes sure that there is room for a tuple of a leaf's row in a slot, and for an entry of each view: here alone
    /// memory is asked for. It fails only out of memory, or if there can't be more slots. The reducts stay in any case.
    pub fn reserve(&mut self, alloc: Global, leaf: usize, slot: u32) -> Result<(), AllocError>
        requires { leaf < self.old.tree.leaves }
        ensures room { OnOk result (HasRoomFor leaf slot self.new.forest.knots) }
        ensures roomier { IsRoomier self.old.forest self.new.forest }
        ensures tree { self.new.tree ≡ self.old.tree }
        ensures fold { self.new.fold ≡ self.old.fold }
        ensures reducts { reducts_in self.new ≡ reducts_in self.old }
    {
        room::reserve(alloc, &mut self.knots, &mut self.edges, leaf, slot)
    }
}
