ghost use Rattle.std.specs.Prelude.{◌≡◌, ◌<◌, ◌≤◌, ℕ, true, false, List, [], ◌∷◌, ◌++◌, length, IfOk, OnErr};
ghost use Rattle.djq_arena.specs.Chains.{first_of};
ghost use Rattle.djq_arena.specs.declared.link.TheConstants.{SLOTS};
ghost use Rattle.djq_forest.specs.EdgeTies.{edge_ties, put_ties};
ghost use Rattle.djq_forest.specs.Forest.{tie_of, list_of};
ghost use Rattle.djq_forest.specs.Invariants.{is_empty};
ghost use Rattle.djq_forest.specs.TieLists.{is_in_list, list_less, put_in_front, taken_out, retied, with_ties, with_lists};
ghost use Rattle.djq_forest.specs.TieLists.{AreTieLists};

use crate::ties::Ties;
use std::alloc::{AllocError, Global};
use std::marker::Model;

/// An edge: each entry of its big knot is tied to an entry of its small one, which has its cells at some columns.
#[derive(Drop)]
pub struct Edge {
    big: usize,
    small: usize,
    feeds: bool,
    columns: Vec<usize>,
    ties: Ties,
}

impl Model for Edge {
    ghost use Rattle.djq_forest.specs.Forest as spec;

    ghost Value = { spec.Edge };

    ghost use Rattle.djq_forest.specs.EdgeTies.{as_edge};

    ghost view = { λ e. as_edge e.big e.small e.feeds e.columns.items e.ties };
}

impl Edge {
    /// An edge between two knots without slots. The big one feeds the small one, or has it as a side.
    pub fn new(alloc: Global, big: usize, small: usize, feeds: bool, columns: Vec<usize>) -> Edge
        ensures { result ≡ record { big = big; small = small; feeds = feeds; columns = columns.items; ties = []; lists = [] } }
    {
        Edge {
            big,
            small,
            feeds,
            columns,
            ties: Ties::new(alloc),
        }
    }

    /// What holds of its ties and lists. It does nothing.
    pub fn laws(&self)
        ensures { AreTieLists (edge_ties self.now) }
    {
        self.ties.laws();
    }

    /// The knot whose entries are tied.
    pub fn big(&self) -> usize
        ensures { result ≡ self.now.big }
    {
        self.big
    }

    /// The knot that they are tied to.
    pub fn small(&self) -> usize
        ensures { result ≡ self.now.small }
    {
        self.small
    }

    /// Whether the big one feeds the small one; else that is its side.
    pub fn feeds(&self) -> bool
        ensures { result ≡ self.now.feeds }
    {
        self.feeds
    }

    /// The columns of the big one's tuples that the small one has.
    pub fn columns(&self) -> &[usize]
        ensures { result.now ≡ self.now.columns }
    {
        &self.columns
    }

    /// Makes so many slots at least on the big knot's side. It fails only out of memory, and then all stays as it was.
    pub fn grow_ties(&mut self, slots: usize) -> Result<(), AllocError>
        requires { slots ≤ SLOTS }
        ensures grown { IfOk result (λ _. self.new ≡ put_ties self.old (with_ties (edge_ties self.old) slots)) }
        ensures refused { OnErr result (self.new ≡ self.old) }
    {
        self.ties.grow_ties(slots)
    }

    /// Makes so many slots at least on the small knot's side, the new ones with empty lists. It fails only out of memory,
    /// and then all stays as it was.
    pub fn grow_lists(&mut self, slots: usize) -> Result<(), AllocError>
        ensures grown { IfOk result (λ _. self.new ≡ put_ties self.old (with_lists (edge_ties self.old) slots)) }
        ensures refused { OnErr result (self.new ≡ self.old) }
    {
        self.ties.grow_lists(slots)
    }

    /// The small knot's slot that a slot of the big one is tied to.
    pub fn to(&self, slot: u32) -> u32
        requires { slot < length self.now.ties }
        ensures { result ≡ tie_of self.now slot }
    {
        self.ties.to(slot)
    }

    /// The first slot that is listed for a slot of the small knot, if there is one.
    pub fn first(&self, to: u32) -> Option<u32>
        requires { to < length self.now.lists }
        ensures { result ≡ first_of (list_of self.now to) }
    {
        self.ties.first(to)
    }

    /// The slot after a slot of a list, if there is one.
    pub fn next(&self, slot: u32) -> Option<u32>
        requires { is_in_list (edge_ties self.now) slot ≡ true }
        ensures { (xs ys : List ℕ) → list_of self.now (tie_of self.now slot) ≡ xs ++ slot ∷ ys → result ≡ first_of ys }
    {
        self.ties.next(slot)
    }

    /// Ties a slot that is in no list to another one.
    pub fn tie(&mut self, slot: u32, to: u32)
        requires within { slot < length self.old.ties }
        requires out { is_in_list (edge_ties self.old) slot ≡ false }
        ensures { self.new ≡ put_ties self.old (retied (edge_ties self.old) slot to) }
    {
        self.ties.tie(slot, to);
    }

    /// Lists a slot that is in no list, in front of those that are tied to the same one. Returns whether none was listed.
    pub fn enter(&mut self, slot: u32) -> bool
        requires within { slot < length self.old.ties }
        requires to { tie_of self.old slot < length self.old.lists }
        requires out { is_in_list (edge_ties self.old) slot ≡ false }
        ensures entered { self.new ≡ put_ties self.old (put_in_front (edge_ties self.old) slot) }
        ensures first { result ≡ is_empty (list_of self.old (tie_of self.old slot)) }
    {
        self.ties.enter(slot)
    }

    /// Removes a slot from its list. Returns whether the list is empty now.
    pub fn leave(&mut self, slot: u32) -> bool
        requires { is_in_list (edge_ties self.old) slot ≡ true }
        ensures left { self.new ≡ put_ties self.old (taken_out (edge_ties self.old) slot) }
        ensures last { result ≡ is_empty (list_of self.new (tie_of self.old slot)) }
    {
        self.ties.leave(slot)
    }
}
