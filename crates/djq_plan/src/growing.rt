//! The tree as it grows.
ghost use Rattle.std.specs.Prelude.{◌≡◌, ◌≢◌, ◌+◌, ◌-◌, ◌<◌, ◌++◌, ◌∷◌, [], length, remove, take};
ghost use Rattle.std.specs.Prelude.{replicate, true, vec_len, IfOk, OnOk, MatchOption};
ghost use Rattle.djq_tree.specs.declared.choice.Choice.TheVariants as rule;
ghost use Rattle.djq_tree.specs.Tree.{IsTree};
ghost use Rattle.djq_tree.specs.Growing.{are_within, is_root, grown, start, marks_below};
ghost use Rattle.djq_tree.specs.Growing.{leaf_nodes, numbers_below, without_both};
ghost use Rattle.djq_plan.specs.Stages.{GrowsOut, IsStageEnd, IsStuckAt, Steps};

use crate::choosing::choose_step;
use djq_hypergraph::{Edges, VarSet};
use djq_tree::{Choice, Node, Tree};
use std::alloc::{AllocError, Global};
use std::marker::Model;

/// The nodes made so far with their labels, and the numbers and labels of those that are current.
#[derive(Drop)]
pub(crate) struct Growing {
    nodes: Vec<Node>,
    labels: Vec<VarSet>,
    numbers: Vec<usize>,
    current: Vec<VarSet>,
}

impl Model for Growing {
    ghost use Rattle.std.specs.Prelude.{◌≡◌, length};
    ghost use Rattle.djq_tree.specs.Growing.{Growth};

    ghost Value = { Growth };

    ghost view = { λ g. record {
      nodes = g.nodes.items;
      labels = g.labels.items;
      numbers = g.numbers.items;
      current =
          g.current.items;
    } };

    ghost invariant = { λ g. length g.numbers.items ≡ length g.current.items };
}

impl Growing {
    /// The atoms of a query as leaves, all of them current.
    pub(crate) fn start(alloc: Global, edges: &Edges) -> Result<Growing, AllocError>
        ensures { IfOk result (λ g. g ≡ start edges.now) }
    {
        Ok(Growing {
            nodes: leaves_of(alloc, edges.len())?,
            labels: Vec::from_slice(alloc, edges.as_slice())?,
            numbers: numbers_to(alloc, edges.len())?,
            current: Vec::from_slice(alloc, edges.as_slice())?,
        })
    }

    /// How many nodes there are.
    pub(crate) fn len(&self) -> usize
        ensures { result ≡ length self.now.nodes }
    {
        self.nodes.len()
    }

    /// Appends a node with its label, without making it current.
    fn push_node(&mut self, node: Node, label: VarSet) -> Result<(), AllocError>
        ensures { OnOk result (self.new ≡ record self.old {
          nodes = self.old.nodes ++ node
              ∷ [];
          labels = self.old.labels ++ label ∷ [];
        }) }
    {
        self.nodes.push(node)?;
        self.labels.push(label)?;
        Ok(())
    }

    /// Trims the node at a place of some variables.
    fn take_trim(&mut self, place: usize, removed: VarSet) -> Result<(), AllocError>
        requires { place < length self.old.current }
        ensures { OnOk result (self.new ≡ grown self.old (rule.Trim place removed)) }
    {
        let label = self.current[place].difference(removed);
        let number = self.nodes.len();
        let child = self.numbers[place];
        self.push_node(Node::Trim { child }, label)?;
        replace_one(&mut self.numbers, place, number);
        replace_one(&mut self.current, place, label);
        Ok(())
    }

    /// Lets the nodes at two places meet.
    fn take_meet(&mut self, guard: usize, side: usize) -> Result<(), AllocError>
        requires guard { guard < length self.old.current }
        requires side { side < length self.old.current }
        requires apart { guard ≢ side }
        ensures { OnOk result (self.new ≡ grown self.old (rule.Meet guard side)) }
    {
        let label = self.current[guard];
        let number = self.nodes.len();
        let node = Node::Meet {
            guard: self.numbers[guard],
            side: self.numbers[side],
        };
        self.push_node(node, label)?;
        replace_two(&mut self.numbers, guard, side, number);
        replace_two(&mut self.current, guard, side, label);
        Ok(())
    }

    /// Applies the step that the choice rule names, and returns whether there is one.
    fn take_step(&mut self, keep: VarSet) -> Result<bool, AllocError>
        ensures { IfOk result (λ b. Steps keep self.old self.new b) }
    {
        match choose_step(&self.current, keep) {
            Choice::Trim { place, removed } => {
                self.take_trim(place, removed)?;
                Ok(true)
            }
            Choice::Meet { guard, side } => {
                self.take_meet(guard, side)?;
                Ok(true)
            }
            Choice::Stuck => Ok(false),
        }
    }

    /// The first stage: steps that remove no variable of the head, until no others are left.
    /// Returns whether it reached its end.
    pub(crate) fn run_first(&mut self, head: VarSet) -> Result<bool, AllocError>
        ensures { IfOk result (λ b. IsStageEnd (are_within head) head self.old self.new b) }
    {
        'first: while !all_within(&self.current, head) {
            if !self.take_step(head)? {
                return Ok(false);
            }
        }
        Ok(true)
    }

    /// The second stage: steps that may remove any variable, until one node without any is left.
    /// Returns whether it reached its end.
    fn run_second(&mut self) -> Result<bool, AllocError>
        ensures { IfOk result (λ b. IsStageEnd is_root [] self.old self.new b) }
    {
        'second: while !is_single_bare(&self.current) {
            if !self.take_step(VarSet::new())? {
                return Ok(false);
            }
        }
        Ok(true)
    }

    /// Runs the second stage and returns, if it reaches its end, which nodes are in `out`: those
    /// that were current as it began, and all later ones.
    pub(crate) fn grow_out(&mut self, alloc: Global) -> Result<Option<Vec<bool>>, AllocError>
        ensures { IfOk result (λ out. MatchOption out (IsStuckAt is_root [] self.old self.new)
            (λ out. GrowsOut self.old self.new out.items)) }
    {
        let mut out = self.marks(alloc)?;
        if !self.run_second()? {
            return Ok(None);
        }
        mark_later(&mut out, self.len())?;
        Ok(Some(out))
    }

    /// Which nodes are current.
    fn marks(&self, alloc: Global) -> Result<Vec<bool>, AllocError>
        ensures { IfOk result (λ m. m.items ≡ marks_below self.now (length self.now.nodes)) }
    {
        let mut marks = Vec::new(alloc);
        for node in 0..self.len() {
            marks.push(self.numbers.contains(&node))?;
        }
        Ok(marks)
    }

    /// The tree of the nodes, with the marks of `out`, the head's variables, the number of leaves,
    /// and the number with which the second stage began.
    pub(crate) fn finish(
        self,
        out: Vec<bool>,
        head: VarSet,
        leaves: usize,
        second_stage: usize,
    ) -> Tree
        requires { IsTree (record {
          nodes = self.nodes;
          labels = self.labels;
          out = out.items;
          head = head;
          leaves = leaves;
          second_stage = second_stage;
        }) }
        ensures { result ≡ record {
          nodes = self.nodes;
          labels = self.labels;
          out = out.items;
          head = head;
          leaves = leaves;
          second_stage = second_stage;
        } }
    {
        let Growing {
            nodes,
            labels,
            numbers: _,
            current: _,
        } = self;
        Tree::new(nodes, labels, out, head, leaves, second_stage)
    }
}

/// Marks the nodes that were made since, so that there are as many marks as nodes.
fn mark_later(marks: &mut Vec<bool>, nodes: usize) -> Result<(), AllocError>
    ensures { OnOk result (marks.new.items ≡ take nodes marks.old.items ++ replicate (nodes - vec_len marks.old) true) }
{
    marks.resize(nodes, true)?;
    Ok(())
}

/// The leaves of the first atoms.
fn leaves_of(alloc: Global, atoms: usize) -> Result<Vec<Node>, AllocError>
    ensures { IfOk result (λ nodes. nodes.items ≡ leaf_nodes atoms) }
{
    let mut nodes = Vec::new(alloc);
    for atom in 0..atoms {
        nodes.push(Node::Leaf { atom })?;
    }
    Ok(nodes)
}

/// The numbers below an end, rising.
fn numbers_to(alloc: Global, end: usize) -> Result<Vec<usize>, AllocError>
    ensures numbers { IfOk result (λ numbers. numbers.items ≡ numbers_below end) }
    ensures count { IfOk result (λ numbers. length numbers.items ≡ end) }
{
    let mut numbers = Vec::new(alloc);
    for number in 0..end {
        numbers.push(number)?;
    }
    Ok(numbers)
}

/// Removes an item and appends another one, which allocates nothing.
fn replace_one<T: Copy>(list: &mut Vec<T>, place: usize, last: T)
    requires { place < length list.old.items }
    ensures { list.new.items ≡ remove list.old.items place ++ last ∷ [] }
{
    list.remove(place);
    list.push(last).unwrap();
}

/// Removes two items and appends another one, which allocates nothing.
fn replace_two<T: Copy>(list: &mut Vec<T>, left: usize, right: usize, last: T)
    requires left { left < length list.old.items }
    requires right { right < length list.old.items }
    requires apart { left ≢ right }
    ensures list { list.new.items ≡ without_both list.old.items left right ++ last ∷ [] }
    ensures count { length list.new.items + 1 ≡ length list.old.items }
{
    list.remove(left.max(right));
    list.remove(left.min(right));
    list.push(last).unwrap();
}

/// Whether each label is a subset of the set.
fn all_within(labels: &[VarSet], set: VarSet) -> bool
    ensures { result ≡ are_within set labels.now }
{
    labels.iter().all(|label| label.is_subset(set))
}

/// Whether there is one label alone, and it is empty.
fn is_single_bare(labels: &[VarSet]) -> bool
    ensures { result ≡ is_root labels.now }
{
    labels.len() == 1 && labels[0].is_empty()
}
