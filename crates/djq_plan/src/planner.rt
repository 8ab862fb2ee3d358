//! The planner's two stages.
ghost use Rattle.std.specs.Prelude.{◌≡◌, ◌↔◌, ◌<◌, length, None, Ok, IfOk, IfErr, IfSome};
ghost use Rattle.djq_hypergraph.specs.Flat.{IsFlat};
ghost use Rattle.djq_hypergraph.specs.Variables.{AreCovered};
ghost use Rattle.djq_hypergraph.specs.JoinTree.{IsFreeConnex};
ghost use Rattle.djq_tree.specs.Flat.{HasEqualMeets};
ghost use Rattle.djq_plan.specs.declared.refusal.PlanRefusal.TheVariants as refusal;
ghost use Rattle.djq_plan.specs.Plan.{IsPlan, IsRefusal};

use crate::growing::Growing;
use crate::refusal::{PlanRefusal, refuse};
use djq_hypergraph::{Edges, VarSet};
use djq_tree::Tree;
use std::alloc::{AllocError, Global};

/// The tree over which the answers of a query are maintained and listed: that of the query with
/// these edges, the sets of its atoms' variables, and this head.
///
/// It is `Ok` if and only if the query is free-connex (Bagan, Durand and Grandjean 2007), and
/// `Cyclic` if and only if the edges have no join tree. It is `NotConnex` if and only if they have
/// one, but the head's edge followed by them has none whose root is the head. These three exclude
/// each other. Any of them may be replaced by `NoMem`.
///
/// The tree is the one that the choice rule of `djq_tree` names, step by step. Its labels in `out`
/// have the head's variables and no others. With m edges, v variables and h head variables it has
/// 2m - 1 nodes that aren't trims and at most v trims, of which at most h are of the second stage.
///
/// A flat query has a plan, and it is flat if and only if the two labels of each meet of its tree
/// are equal. Its updates then need a number of steps that doesn't grow with the rows.
///
/// Each of the at most 2m + v steps is found by O(m^2) operations on words; no step is ever undone.
/// Beside the tree, the numbers and labels of the at most m current nodes need memory while it
/// grows.
pub fn plan(alloc: Global, edges: &Edges, head: &VarSet) -> Result<Tree, PlanRefusal>
    requires some { 0 < length edges.now }
    requires head { AreCovered head.now edges.now }
    ensures connex { IfOk result (λ _. IsFreeConnex edges.now head.now) }
    ensures plan { IfOk result (λ t. IsPlan edges.now head.now t) }
    ensures refused { IfErr result (λ e. IsRefusal edges.now head.now e) }
    ensures flat_ok { IfOk result (λ t. IsFlat edges.now head.now ↔ HasEqualMeets t) }
    ensures flat_err { IfErr result (λ e. IsFlat edges.now head.now → e ≡ refusal.NoMem) }
{
    match grow_tree(alloc, edges, *head)? {
        Some(tree) => Ok(tree),
        None => Err(refuse(alloc, edges, *head)),
    }
}

/// The tree that the two stages grow, if both reach their end.
fn grow_tree(alloc: Global, edges: &Edges, head: VarSet) -> Result<Option<Tree>, AllocError>
    requires some { 0 < length edges.now }
    requires head { AreCovered head edges.now }
    ensures stuck { result ≡ Ok None → IsFreeConnex edges.now head → ⊥ }
    ensures connex { IfOk result (λ t. IfSome t (λ _. IsFreeConnex edges.now head)) }
    ensures plan { IfOk result (λ t. IfSome t (IsPlan edges.now head)) }
    ensures flat { result ≡ Ok None → IsFlat edges.now head → ⊥ }
{
    edges.rise();
    head.rises();
    let mut growing = Growing::start(alloc, edges)?;
    if !growing.run_first(head)? {
        return Ok(None);
    }
    let second_stage = growing.len();
    match growing.grow_out(alloc)? {
        Some(out) => Ok(Some(growing.finish(out, head, edges.len(), second_stage))),
        None => Ok(None),
    }
}
