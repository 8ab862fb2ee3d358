//! Generalised join trees, over which a query's answers are maintained and listed.
//!
//! A [`Tree`] of a conjunctive query has its atoms as leaves. An inner node is a *trim* of one node
//! or a *meet* of two (Idris, Ugarte, Vansummeren, *The dynamic Yannakakis algorithm*, SIGMOD
//! 2017). A trim is a projection on fewer variables, and a meet has the tuples of its guard that
//! agree with one of its side. A node's label is its variables. The query's answers are read from
//! the part `out`.
//!
//! ```text
//! q(x,y) <- r(x,y), s(y)       n 0 leaf r x,y out       0: r x,y     1: s y
//!                              n 1 leaf s y out             |          |
//!                              n 2 trim 0 y out          2: y ----- 3: y     guard 1, side 2
//!                              n 3 meet 1 2 y out                      |
//!                              n 4 trim 3 - out                     4: -     the root
//! ```
//!
//! This crate has the tree with its invariant, its paths, its text, the group keys and levels by
//! which its nodes' tuples are stored and listed, and the law that a tree is small. It also has the
//! definition of the tree that belongs to a query: the choice rule on the current nodes, and the
//! two stages in which the rule grows it. It builds no tree; `djq_plan` does.
//!
//! What surprises: a tree may have nodes with equal or empty labels, and a single leaf without
//! variables is one.
//!
//! Inside, a tree is three lists side by side, with the head's variables. The parents of the first
//! nodes are stored as hints, and a hint is checked before it is used. Children have lower numbers,
//! so one pass up the nodes finds any other parent, and a whole path.
#![tactic(auto)]

mod choice;
mod lines;
mod node;
mod path;
mod tree;

pub use choice::Choice;
pub use lines::Lines;
pub use node::Node;
pub use path::Path;
pub use tree::Tree;
