ghost use Rattle.std.specs.Prelude.{◌≡◌};
ghost use Rattle.djq_model.specs.Listed.{a_query};
ghost use Rattle.djq_store_spec.specs.Asking.{IsShapeOf};
ghost use Rattle.djq_live_query.specs.Live.{IsKeptSomewhere};

use crate::headed::HeadedQuery;
use djq_cursors::Cursors;
use djq_enumeration::Cursor;
use djq_hypergraph::is_flat;
use djq_model::Query;
use djq_protocol::Shape;
use djq_query::Pattern;
use djq_reduct::Reducts;
use std::marker::Model;

/// One registered query, maintained while the rows below it change.
#[derive(Drop)]
pub struct LiveQuery {
    pub(crate) query: Query,
    pub(crate) numbered: HeadedQuery,
    // one for each atom
    pub(crate) patterns: Vec<Pattern>,
    pub(crate) reducts: Reducts,
    pub(crate) cursors: Cursors<Cursor>,
}

impl Model for LiveQuery {
    ghost use Rattle.djq_live_query.specs.Live.{Live};

    ghost Value = { Live };

    ghost view = { λ l. record {
      query = l.query;
      numbered = l.numbered;
      patterns = l.patterns.items;
      reducts =
          l.reducts;
      cursors = l.cursors;
    } };
}

impl LiveQuery {
    /// The query.
    pub fn query(&self) -> &Query
        ensures { result.now ≡ self.now.query }
    {
        &self.query
    }

    /// Its tables: if it is live over a catalog they are those of its tree over the catalog's rows.
    pub fn reducts(&self) -> &Reducts
        ensures { result.now ≡ self.now.reducts }
    {
        &self.reducts
    }

    /// What bounds an update: only its query's variables matter, and those of an atom are the label of
    /// its leaf.
    pub fn shape(&self) -> Shape
        requires { IsKeptSomewhere self.now }
        ensures { IsShapeOf (a_query self.now.query) result }
    {
        let tree = self.reducts.tree();
        if is_flat(tree.leaf_labels(), &tree.head()) {
            Shape::Flat
        } else {
            Shape::Linear
        }
    }
}
