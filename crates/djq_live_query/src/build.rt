//! How a query is registered.
ghost use Rattle.std.specs.Prelude.{◌≡◌, [], None, IfOk, map};
ghost use Rattle.djq_protocol.specs.QueryFault.{query_fault};
ghost use Rattle.djq_protocol.specs.Variables.{constants_of};
ghost use Rattle.djq_binder.specs.Planning.{IsPlanned};
ghost use Rattle.djq_live_query.specs.Live.{IsLive, IsKeptSomewhere};
ghost use Rattle.djq_protocol.specs.Hypergraph.{variable_names};
ghost use Rattle.djq_database.specs.Cells.{HaveCells};
ghost use Rattle.djq_tree.specs.Explaining.{explain_of};

use crate::headed::HeadedQuery;
use crate::live::LiveQuery;
use djq_binder::{PlannedQuery, relation_names, variable_names};
use djq_counters::{Ledgers, Steps};
use djq_cursors::Cursors;
use djq_database::Catalog;
use djq_leaves::{bind_atoms, fill_leaves};
use djq_model::{NoMem, Query};
use djq_reduct::Reducts;
use djq_tree::Lines;
use std::alloc::Global;

impl LiveQuery {
    /// A planned query over the rows of a catalog, without cursors. Its constants are known.
    ///
    /// # Errors
    ///
    /// `NoMem` out of memory.
    pub fn build<L: Ledgers>(
        alloc: Global,
        query: Query,
        planned: PlannedQuery,
        catalog: &Catalog,
        steps: &mut Steps<L>,
    ) -> Result<LiveQuery, NoMem>
        requires sound { query_fault catalog.now.relations query ≡ None }
        requires planned { IsPlanned catalog.now.relations query planned }
        requires constants { HaveCells catalog.now.texts (constants_of query) }
        ensures live { IfOk result (λ l. IsLive catalog.now l) }
        ensures query { IfOk result (λ l. l.query ≡ query) }
        ensures cursors { IfOk result (λ l. l.cursors ≡ []) }
        ensures listing { steps.new.listing ≡ steps.old.listing }
    {
        let PlannedQuery { numbered, tree } = planned;
        catalog.laws();
        numbered.within();
        let _nodes = tree.len();
        let patterns = bind_atoms(
            alloc,
            catalog,
            numbered.atoms(),
            numbered.comparisons(),
            &tree,
        )?;
        let mut reducts = Reducts::new(alloc, tree)?;
        fill_leaves(
            catalog,
            numbered.atoms(),
            &patterns,
            &mut reducts,
            &mut steps.rows,
            &mut steps.update,
        )?;
        reducts.laws();
        let numbered = HeadedQuery::of(alloc, numbered)?;
        Ok(LiveQuery {
            query,
            numbered,
            patterns,
            reducts,
            cursors: Cursors::new(alloc),
        })
    }

    /// The lines that explain the query's tree.
    ///
    /// # Errors
    ///
    /// `NoMem` out of memory.
    pub fn explain(&self, alloc: Global) -> Result<Lines, NoMem>
        requires kept { IsKeptSomewhere self.now }
        ensures { IfOk result (λ lines. lines ≡ explain_of
            (map (λ a. a.relation) self.now.query.atoms) (variable_names self.now.query)
            self.now.reducts.tree) }
    {
        let relations = relation_names(alloc, &self.query)?;
        let variables = variable_names(alloc, self.numbered.variables())?;
        let lines = self
            .reducts
            .tree()
            .explain_text(alloc, &relations, &variables)?;
        Ok(lines)
    }
}
