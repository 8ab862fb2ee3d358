//! Examples of each public call of the store and of what uses it: unions, live queries, live
//! unions, the join machine, and the program over hubs and disks in memory.
//!
//! The tests of these libraries are here, one module for each library, so that no library is proved
//! a second time for its tests. They use what any crate above may use, and nothing else.
//!
//! ```text
//! (cd crates/djq_examples_store && rt test)       proves the tests, and runs them
//! ```
//!
//! What this crate is not: it has no function of its own. What surprises: without its tests it is
//! empty.
//!
//! Inside, `union`, `live`, `united` and `sessions` test the library of that name (`sessions` djq_core). `program`, `hub` and
//! `log` test the program: over a source and a sink, over a hub that fails, and over a disk that is
//! stopped at each call.
#![tactic(auto)]

#[cfg(test)]
mod hub;
#[cfg(test)]
mod live;
#[cfg(test)]
mod log;
#[cfg(test)]
mod program;
#[cfg(test)]
mod sessions;
#[cfg(test)]
mod union;
#[cfg(test)]
mod united;
