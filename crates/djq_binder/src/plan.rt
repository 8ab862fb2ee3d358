//! Whether a query is free-connex, and its tree.
ghost use Rattle.std.specs.Prelude.{◌≡◌, ◌<◌, None, IfOk, IfErr, length};
ghost use Rattle.djq_protocol.specs.Hypergraph.{edges_of, head_of};
ghost use Rattle.djq_protocol.specs.QueryFault.{query_fault};
ghost use Rattle.djq_plan.specs.Plan.{IsRefusal};
ghost use Rattle.djq_protocol.specs.Variables.{variables_of};
ghost use Rattle.djq_model.specs.declared.query.Query.{Query as AskedQuery};
ghost use Rattle.djq_query.specs.Numbered.{IsNumbered, labels};
ghost use Rattle.djq_binder.specs.Planning.{IsPlanned, IsUnplanned};

use crate::fault::Shown;
use crate::rest::name_rest;
use djq_database::Catalog;
use djq_model::{NoMem, Query};
use djq_plan::{PlanRefusal, plan};
use djq_protocol::NamedRest;
use djq_query::{NumberedQuery, Variable, number};
use djq_tree::Tree;
use std::alloc::Global;

/// A free-connex query by number, and its tree.
#[derive(Debug, Drop)]
pub struct PlannedQuery {
    /// The query by number.
    pub numbered: NumberedQuery,
    /// Its generalised join tree.
    pub tree: Tree,
}

/// Why a query has no plan.
#[derive(Debug, Drop)]
pub enum Unplanned {
    /// Its hypergraph has no join tree, as a rest of it shows.
    Cyclic(NamedRest),
    /// Its hypergraph has a join tree, but none with the head as its root.
    NotConnex(NamedRest),
    /// Out of memory.
    NoMem,
}

impl From<NoMem> for Unplanned {
    ghost use Rattle.std.specs.Prelude.{◌≡◌};
    ghost use Rattle.djq_binder.specs.declared.plan.Unplanned.TheVariants as unplanned;

    ghost from_gives = { λ _ r. r ≡ unplanned.NoMem };

    fn from(_error: NoMem) -> Unplanned {
        Unplanned::NoMem
    }
}

/// A query without faults by number.
fn number_query(alloc: Global, catalog: &Catalog, query: &Query) -> Result<NumberedQuery, NoMem>
    requires { query_fault catalog.now.relations query.now ≡ None }
    ensures { IfOk result (IsNumbered catalog.now.relations query.now) }
{
    match number(alloc, &Shown { catalog }, query) {
        Ok(numbered) => Ok(numbered),
        Err(_refusal) => Err(NoMem),
    }
}

/// Why a query has no plan, with the names of its variables.
fn name_refusal(alloc: Global, variables: &[Variable], refusal: PlanRefusal) -> Unplanned
    ensures { (q : AskedQuery) → labels variables.now ≡ variables_of q.atoms
        → IsRefusal (edges_of q) (head_of q) refusal → IsUnplanned q result }
{
    match refusal {
        PlanRefusal::Cyclic(rest) => match name_rest(alloc, variables, &rest) {
            Ok(named) => Unplanned::Cyclic(named),
            Err(NoMem) => Unplanned::NoMem,
        },
        PlanRefusal::NotConnex(rest) => match name_rest(alloc, variables, &rest) {
            Ok(named) => Unplanned::NotConnex(named),
            Err(NoMem) => Unplanned::NoMem,
        },
        PlanRefusal::NoMem => Unplanned::NoMem,
    }
}

/// Numbers a query without faults and plans it.
///
/// # Errors
///
/// [`Unplanned::Cyclic`] if its hypergraph has no join tree, [`Unplanned::NotConnex`] if it has one
/// but none with the head as its root; [`Unplanned::NoMem`] out of memory.
pub fn plan_query(
    alloc: Global,
    catalog: &Catalog,
    query: &Query,
) -> Result<PlannedQuery, Unplanned>
    requires sound { query_fault catalog.now.relations query.now ≡ None }
    requires some { 0 < length query.now.atoms }
    ensures planned { IfOk result (IsPlanned catalog.now.relations query.now) }
    ensures refused { IfErr result (IsUnplanned query.now) }
{
    let numbered = number_query(alloc, catalog, query)?;
    numbered.within();
    let edges = numbered.edges(alloc)?;
    edges.rise();
    let head = numbered.head_variables();
    head.rises();
    match plan(alloc, &edges, &head) {
        Ok(tree) => Ok(PlannedQuery { numbered, tree }),
        Err(refusal) => Err(name_refusal(alloc, numbered.variables(), refusal)),
    }
}
