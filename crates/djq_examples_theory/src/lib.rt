//! Examples of the libraries of hypergraphs, join trees, plans, the data model and step counters.
//!
//! Each module calls one library as its users do, with ample memory, and asserts what the calls return.
//! The examples are tests, and are a crate of their own so that no library is proved twice: a crate with
//! tests is. Nothing here is public, and no crate uses this one.
//!
//! ```text
//! module   library       examples of
//! hyper    djq_hypergraph     sets of variables, names, flat queries, join trees
//! gyo      djq_plan       reductions, and the rests that they leave
//! tree     djq_tree      the tree of one leaf
//! plan     djq_plan      trees of queries, and refused queries
//! model    djq_model     names
//! steps    djq_counters     counters that use no bytes
//! ```
//!
//! Inside, `shapes` makes the sets and edges that several modules start from.
#![tactic(auto)]

#[cfg(test)]
mod gyo;
#[cfg(test)]
mod hyper;
#[cfg(test)]
mod model;
#[cfg(test)]
mod plan;
#[cfg(test)]
mod shapes;
#[cfg(test)]
mod steps;
#[cfg(test)]
mod tree;
