ghost use Rattle.std.specs.Prelude.{ℕ, ◌<◌, length, IfSome, IfNone};
ghost use Rattle.djq_hypergraph.specs.Hypergraph.{degree};
ghost use Rattle.djq_hypergraph.specs.Gyo.{IsStep, IsIrreducible, HasNoVariables};
ghost use Rattle.djq_plan.specs.Search.{HasNoOwn};

use djq_hypergraph::{Step, VarSet, own_variables};

/// A step that removes a variable which is in one edge only.
fn find_vertex(sets: &[VarSet]) -> Option<Step>
    ensures none { IfNone result (HasNoOwn sets.now) }
    ensures some { IfSome result (IsStep sets.now) }
{
    let own = own_variables(sets);
    'sets: for edge in 0..sets.len() {
        let shared = sets[edge].intersection(own);
        if let Some(variable) = shared.first() {
            return Some(Step::Vertex { edge, variable });
        }
    }
    None
}

/// Another edge that the edge is a subset of.
fn find_over(sets: &[VarSet], edge: usize) -> Option<usize>
    requires { edge < length sets.now }
    ensures none { IfNone result ((j : ℕ) → IsStep sets.now (Step.Edge edge j) → ⊥) }
    ensures some { IfSome result (λ j. IsStep sets.now (Step.Edge edge j)) }
{
    let set = sets[edge];
    'sets: for within in 0..sets.len() {
        if within != edge && set.is_subset(sets[within]) {
            return Some(within);
        }
    }
    None
}

/// A step that removes an edge which is a subset of another one.
fn find_edge(sets: &[VarSet]) -> Option<Step>
    ensures none { IfNone result ((i j : ℕ) → IsStep sets.now (Step.Edge i j) → ⊥) }
    ensures some { IfSome result (IsStep sets.now) }
{
    'sets: for edge in 0..sets.len() {
        if let Some(within) = find_over(sets, edge) {
            return Some(Step::Edge { edge, within });
        }
    }
    None
}

/// A step that applies, if there is one.
pub fn find_step(sets: &[VarSet]) -> Option<Step>
    ensures none { IfNone result (IsIrreducible sets.now) }
    ensures some { IfSome result (IsStep sets.now) }
{
    if let Some(step) = find_vertex(sets) {
        return Some(step);
    }
    find_edge(sets)
}

/// A variable that is in an edge, if there is one.
pub fn find_variable(sets: &[VarSet]) -> Option<usize>
    ensures none { IfNone result (HasNoVariables sets.now) }
    ensures some { IfSome result (λ x. 0 < degree x sets.now) }
{
    'sets: for i in 0..sets.len() {
        if let Some(variable) = sets[i].first() {
            return Some(variable);
        }
    }
    None
}
