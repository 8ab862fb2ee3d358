ghost use Rattle.std.specs.Prelude.{◌≡◌, ◌≢◌, ◌↔◌, [], ◌∷◌, IfOk};
ghost use Rattle.djq_hypergraph.specs.Gyo.{Leads, HasNoVariables, IsRest, IsLean};
ghost use Rattle.djq_hypergraph.specs.JoinTree.{HasJoinTree, HasJoinTreeFrom};
ghost use Rattle.djq_plan.specs.Reduced.{LeadsToBare};

use crate::find::{find_step, find_variable};
use crate::steps::Steps;
use crate::take::take_step;
use djq_hypergraph::{Edges, VarSet};
use std::alloc::{AllocError, Global};

/// The result of a reduction.
#[derive(Debug, Drop)]
pub struct Reduction {
    /// The steps that were applied.
    pub steps: Steps,
    /// The edges that are left, or none if no variable is left.
    pub rest: Edges,
}

/// Reduces the edges as far as possible (Graham 1979; Yu and Ozsoyoglu 1979).
///
/// The rest is empty if and only if the edges have a join tree. Then the steps lead from the edges
/// to edges without a variable; otherwise they lead to the rest, to which no step applies.
///
/// With m edges of at most v variables it needs at most mv + m steps, each found by O(m^2)
/// operations on words. It makes no lists but those of the answer.
pub fn reduce(alloc: Global, edges: &Edges) -> Result<Reduction, AllocError>
    ensures acyclic { IfOk result (λ r. (r.rest ≡ []) ↔ HasJoinTree edges.now) }
    ensures to_bare { IfOk result (λ r. r.rest ≡ [] → LeadsToBare edges.now r.steps) }
    ensures to_rest { IfOk result (λ r. r.rest ≢ [] → Leads edges.now r.steps r.rest) }
    ensures rest { IfOk result (λ r. r.rest ≢ [] → IsRest edges.now r.rest) }
{
    let mut sets = Vec::from_slice(alloc, edges.as_slice())?;
    let mut steps = Vec::new(alloc);
    'steps: while let Some(step) = find_step(&sets) {
        steps.push(step)?;
        take_step(&mut sets, step);
    }
    let rest = match find_variable(&sets) {
        Some(_variable) => Edges::from_sets(sets),
        None => Edges::new(alloc),
    };
    Ok(Reduction {
        steps: Steps::from_steps(steps),
        rest,
    })
}

/// The law that an edge followed by others with any join tree has one with this edge as its root.
pub fn turn_join_tree(first: VarSet, edges: &Edges)
    ensures { HasJoinTree (first ∷ edges.now) → HasJoinTreeFrom first edges.now }
{}

/// The law that a rest has no empty edge, no two equal ones, and no variable that the edges lack.
pub fn rest_is_lean(edges: &Edges, rest: &Edges)
    ensures { IsRest edges.now rest.now → IsLean edges.now rest.now }
{}
