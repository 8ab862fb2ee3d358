//! Whether a query can be asked over a catalog's relations, and its tree.
//!
//! [`query_fault_of`] finds its first fault. [`intern_constants`] makes its constants known to the
//! catalog. [`plan_query`] puts numbers for its variables and plans it: it is free-connex and has a
//! generalised join tree, or what is left of its hypergraph's reduction shows why it isn't.
//!
//! ```text
//! q(x,y) <- r(x,z), s(z,y)     r int int, s int int
//! the fault                    none
//! the plan                     none: x,z and x,y and z,y are left
//!
//! p(x) <- r(x,z), s(z,3)       x is 0, z is 1
//! the plan                     leaf 0 over 0,1; leaf 1 over 1; the head is 0
//! ```
//!
//! It stores nothing: what it makes is djq_live_query's to store. What surprises: constants that became
//! known before one was refused stay so, and none of them changes an answer.
//!
//! Inside, the faults and the numbers are djq_query's, and the tree is djq_plan's, with the names of the
//! query's variables put back when it is printed. A rest is printed with its edges in lexical order.
#![tactic(auto)]

pub use constants::intern_constants;
pub use fault::query_fault_of;
pub use names::{relation_names, variable_names};
pub use plan::{PlannedQuery, Unplanned, plan_query};

mod constants;
mod fault;
mod names;
mod plan;
mod rest;
