//! Examples of each public call of the tables: arenas, indexed tables, texts, rows, reducts and their
//! updates, cursors, queries by number, and transactions.
//!
//! The tests of these libraries are here, one module for each library, so that no library is proved
//! a second time for its tests. They use what any crate above may use, and nothing else.
//!
//! ```text
//! (cd crates/djq_examples_tables && rt test)      proves the tests, and runs them
//! ```
//!
//! What this crate is not: it has no function of its own. What surprises: without its tests it is
//! empty.
//!
//! Inside, `arena`, `index`, `dict`, `texts`, `rows`, `reduct`, `propagate`, `cursor`, `delta`, `query`,
//! `slots` and `transaction` test the library of that name.
#![tactic(auto)]

#[cfg(test)]
mod arena;
#[cfg(test)]
mod cursor;
#[cfg(test)]
mod delta;
#[cfg(test)]
mod dict;
#[cfg(test)]
mod index;
#[cfg(test)]
mod propagate;
#[cfg(test)]
mod query;
#[cfg(test)]
mod reduct;
#[cfg(test)]
mod rows;
#[cfg(test)]
mod slots;
#[cfg(test)]
mod texts;
#[cfg(test)]
mod transaction;
