//! Why a query has no plan.
ghost use Rattle.std.specs.Prelude.{◌≡◌, ℕ, ◌∷◌, ◌++◌, IfOk};
ghost use Rattle.djq_hypergraph.specs.JoinTree.{IsFreeConnex};
ghost use Rattle.djq_plan.specs.Plan.{IsRefusal};

use crate::reduce;
use djq_hypergraph::{Edges, VarSet};
use std::alloc::{AllocError, Global};
use thiserror::Error;

/// Why a query has no plan.
#[derive(Debug, Drop, Error)]
pub enum PlanRefusal {
    /// The edges have no join tree. A rest of their reduction shows it.
    #[error("the edges have no join tree")]
    Cyclic(Edges),
    /// The edges have a join tree, but with the head's edge before them none whose root it is. A
    /// rest of the reduction of these shows it.
    #[error("the edges have no join tree rooted at the head")]
    NotConnex(Edges),
    /// Memory ran out.
    #[error("out of memory")]
    NoMem,
}

impl From<AllocError> for PlanRefusal {
    ghost use Rattle.std.specs.Prelude.{◌≡◌};
    ghost use Rattle.djq_plan.specs.declared.refusal.PlanRefusal.TheVariants as refusal;

    ghost from_gives = { λ _ r. r ≡ refusal.NoMem };

    fn from(_error: AllocError) -> PlanRefusal {
        PlanRefusal::NoMem
    }
}

/// The refusal of a query that isn't free-connex, with its rest.
pub(crate) fn refuse(alloc: Global, edges: &Edges, head: VarSet) -> PlanRefusal
    requires { IsFreeConnex edges.now head → ⊥ }
    ensures { IsRefusal edges.now head result }
{
    match find_rest(alloc, edges, head) {
        Ok(refusal) => refusal,
        Err(_error) => PlanRefusal::NoMem,
    }
}

/// The rest of the edges if they have one, else that of the head followed by them.
fn find_rest(alloc: Global, edges: &Edges, head: VarSet) -> Result<PlanRefusal, AllocError>
    requires { IsFreeConnex edges.now head → ⊥ }
    ensures { IfOk result (λ e. IsRefusal edges.now head e) }
{
    let rest = reduce(alloc, edges)?.rest;
    if !rest.is_empty() {
        return Ok(PlanRefusal::Cyclic(rest));
    }
    let fronted = put_in_front(alloc, edges, head)?;
    let rest = reduce(alloc, &fronted)?.rest;
    Ok(PlanRefusal::NotConnex(rest))
}

/// An edge followed by others.
fn put_in_front(alloc: Global, edges: &Edges, front: VarSet) -> Result<Edges, AllocError>
    ensures { IfOk result (λ e. e ≡ front ∷ edges.now) }
{
    let mut sets = Vec::new(alloc);
    sets.push(front)?;
    sets.extend_from_slice(edges.as_slice())?;
    Ok(Edges::from_sets(sets))
}
