ghost use Rattle.std.specs.Prelude.{◌≡◌, ℕ, ◌<◌, [], length, IfOk};
ghost use Rattle.djq_index.specs.Table.{IsTable};
ghost use Rattle.djq_tree.specs.Labels.{label_at};
ghost use Rattle.djq_tree.specs.Levels.{levels};
ghost use Rattle.djq_tree.specs.Tree.{node_at};
ghost use Rattle.djq_reduct.specs.Columns.{column, columns};
ghost use Rattle.djq_reduct.specs.Tables.{entries_at, key_at, width_at};
ghost use Rattle.djq_reduct.specs.Reducts as spec;
ghost use Rattle.djq_reduct.specs.Reducts.{
  IsReducts,
  IsReductOf,
  IsNarrow,
  SameLeaves,
  SameTables,
};

use crate::columns::{column_of, empty_table};
use crate::heads::{HeadColumns, head_columns, head_places};
use crate::levels::levels_of;
use djq_index::Table;
use djq_tree::Tree;
use std::alloc::{AllocError, Global};
use std::marker::Model;

/// A tree, and for each of its nodes the table that is the node's reduct.
///
/// The parts are public, so that an update changes the tables in place, without a copy: whoever borrows
/// them has shown that they are reducts again once the whole is given back.
#[derive(Drop)]
pub struct Reducts {
    pub tree: Tree,
    pub tables: Vec<Table>,
    // for each node, the places of its label's variables in an answer
    pub(crate) columns: Vec<HeadColumns>,
    // for each variable, its place in an answer
    pub(crate) places: Vec<usize>,
    // the levels of a listing, from the highest one on
    pub(crate) descent: Vec<usize>,
}

impl Model for Reducts {
    ghost use Rattle.djq_reduct.specs.Reducts as spec;

    ghost Value = { spec.Reducts };

    ghost view = { λ r. record { tree = r.tree; tables = r.tables.items } };

    ghost use Rattle.std.specs.Prelude.{◌≡◌, length};
    ghost use Rattle.djq_hypergraph.specs.declared.var_set.TheConstants.{VARIABLES};
    ghost use Rattle.djq_reduct.specs.Heads.{head_columns, head_places};
    ghost use Rattle.djq_tree.specs.Levels.{levels};

    ghost invariant = { λ r. spec.IsReducts (record { tree = r.tree; tables = r.tables.items })
        × (r.columns.items ≡ head_columns r.tree (length r.tree.nodes))
        × (r.places.items ≡ head_places r.tree.head VARIABLES)
        × (r.descent.items ≡ levels r.tree) };
}

impl Reducts {
    /// The reducts of a tree whose leaves have no tuple yet. It fails only out of memory.
    pub fn new(alloc: Global, tree: Tree) -> Result<Reducts, AllocError>
        requires { IsNarrow tree }
        ensures tree { IfOk result (λ r. r.tree ≡ tree) }
        ensures empty { IfOk result (λ r. (k : ℕ) → entries_at r.tables k ≡ []) }
    {
        let mut tables = Vec::new(alloc);
        for node in 0..tree.len() {
            tables.push(empty_table(alloc, &tree, node)?)?;
        }
        let columns = head_columns(alloc, &tree)?;
        let places = head_places(alloc, tree.head())?;
        let descent = levels_of(alloc, &tree)?;
        Ok(Reducts {
            tree,
            tables,
            columns,
            places,
            descent,
        })
    }

    /// The tree.
    pub fn tree(&self) -> &Tree
        ensures { result.now ≡ self.now.tree }
    {
        &self.tree
    }

    /// The table of a node: its reduct, given the tables of its children.
    pub fn table(&self, node: usize) -> &Table
        requires { node < length self.now.tree.nodes }
        ensures entries { result.now.entries ≡ entries_at self.now.tables node }
        ensures key { result.now.key ≡ key_at self.now.tables node }
        ensures width { result.now.width ≡ width_at self.now.tables node }
        ensures reduct { IsReductOf (node_at self.now.tree.nodes node) self.now.tables node }
    {
        &self.tables[node]
    }

    /// The places of the variables of a node's label in an answer. They were found once, as the reducts
    /// were made.
    pub fn columns(&self, node: usize) -> &[usize]
        requires { node < length self.now.tree.nodes }
        ensures { result.now ≡ columns self.now.tree.head (label_at self.now.tree.labels node) }
    {
        self.columns[node].as_slice()
    }

    /// The place of a variable in an answer; if it isn't in the head, how long that is.
    pub fn column(&self, variable: usize) -> usize
        ensures { result ≡ column self.now.tree.head variable }
    {
        if variable < self.places.len() {
            return self.places[variable];
        }
        column_of(self.tree.head(), variable)
    }

    /// The levels of a listing, from the highest one on. They were found once, as the reducts were made.
    pub fn levels(&self) -> &[usize]
        ensures { result.now ≡ levels self.now.tree }
    {
        &self.descent
    }

    /// What holds of all reducts; and that tables with these laws are known once the leaves' tuples are.
    /// It does nothing.
    pub fn laws(&self)
        ensures sound { IsReducts self.now }
        ensures only { (other : spec.Reducts) → IsReducts other → SameLeaves self.now other
            → SameTables self.now other }
    {
        let _tables = &self.tables;
    }
}
