//! Reducts: one table for each node of a generalised join tree, always determined by its children's
//! tables (Idris, Ugarte, Vansummeren, *The dynamic Yannakakis algorithm*, SIGMOD 2017).
//!
//! The reduct of a leaf is the tuples of its atom. A trim's reduct is the projections of its
//! child's tuples, each with as many supports as the child has tuples there; a meet's is the
//! guard's tuples whose projection is in the side's reduct. So a tuple in the root's table means
//! that the query has an answer, and a tuple in a table of the part `out` lies on the way to one:
//! tuples without an answer aren't there, as in Yannakakis, *Algorithms for acyclic database
//! schemes*, VLDB 1981.
//!
//! ```text
//! q(x,y) <- r(x,y), s(y)                 tuples, and supports above 1
//! 4   trim of 3, on nothing              ()
//! 3   meet of 2 with 1                   5
//! 2   trim of 0, on y                    5 by 2    7
//! 1   leaf s(y)                          5    9
//! 0   leaf r(x,y)                        1,5    2,7    3,5
//! ```
//!
//! This crate has the tables with that law as an invariant. It evaluates no query and lists no
//! answer, and it changes no table: djq_propagate and djq_enumeration do.
//!
//! What surprises: the leaves' tuples determine all others ([`Reducts::laws`]), and a caller may
//! cite that instead of the updates that made them.
//!
//! Inside, the tables are a list by the nodes' numbers. A table's columns are its label's variables
//! in rising order, and its key is the node's group key, by which its parent looks it up.
#![tactic(auto)]

mod columns;
mod heads;
mod levels;
mod narrow;
mod reducts;

pub use columns::column_of;
pub use djq_index::{CELLS, Cells};
pub use narrow::is_narrow;
pub use reducts::Reducts;

/// An answer: a cell for each variable of the head, in rising order of the variables.
pub type Answer = Cells;
