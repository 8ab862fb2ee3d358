//! Hypergraphs and their join trees.
//!
//! A hypergraph is a list of edges, and an edge a set of at most [`VARIABLES`] variables. Equal
//! edges, empty edges and no edge at all are allowed. A join tree gives each edge but the first an
//! earlier edge as its parent, so that the edges with any one variable are connected (Beeri, Fagin,
//! Maier and Yannakakis 1983). A hypergraph that has a join tree is called acyclic.
//!
//! This crate has the definitions (`specs/`), also of what refuses a query that isn't free-connex,
//! the types, and [`check_join_tree`], which decides whether a proposed tree is a join tree. It
//! builds no tree: `djq_plan` decides whether there is one. It isn't for atoms, relations or values
//! either: here a query is only its sets of variables.
//!
//! What surprises: a join tree is a list of links, in which the first link's parent is never read,
//! and a list of no edges has the tree of no links. That one edge and no other is topmost is
//! required only of variables that are in an edge.
//!
//! ```text
//! 0  x y          a join tree: 0, then 1 below 0, then 2 below 1
//! 1  y z          y is in 0 and 1, z in 1 and 2: the edges with either hang together
//! 2  z w
//! x y, y z, z x   has none: below whichever edge the third one hangs, one variable is cut
//! ```
//!
//! Inside, a set of variables is one word of 128 bits, and contracts see it as the list of its
//! variables in rising order. Only `var_set` and the lemmas about its words know of bits.
#![tactic(auto)]

mod check;
mod edges;
mod flat;
mod join_tree;
mod names;
mod own;
mod step;
mod var_set;

pub use check::check_join_tree;
pub use edges::Edges;
pub use flat::is_flat;
pub use join_tree::{JoinTree, Link};
pub use names::Names;
pub use own::own_variables;
pub use step::Step;
pub use var_set::{VARIABLES, VarSet};
