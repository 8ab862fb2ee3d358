//! What a change of rows does to the queries in their places, and to their logs.
//!
//! [`insert_into_readers`] and [`delete_from_readers`] pass an inserted or deleted row to the queries in these places,
//! one after another; [`empty_logs`] and [`outdate`] empty their logs and make their cursors stale. The caller passes
//! the places of those that read the relation: no other place is looked at.
//!
//! [`insert_batch_into_readers`] hands over groups of rows, each of a relation: group after group, and a group to all
//! queries that read its relation ([`insert_all_into_readers`]). A log has then what all groups together added.
//!
//! It stores nothing, and it knows no catalog, no names and no sessions. A query is djq_live_query's, and what it is
//! live over is in contracts alone (`specs/Reaching.antt`). What the logs have and what is counted is stated for all
//! places together (`specs/Tending.antt`).
//!
//! What surprises: if one query finds no memory, the row is removed again from those before it, so that all are live
//! over the rows that they had before; but the logs of those that had it still have its answers, and are to be emptied.
//! A batch empties them itself, and it is undone row by row, since that needs no memory: so a refusal may count as much
//! as each row on its own.
//!
//! ```text
//! place    0   1   2   3         the readers of r: 0, 3
//! query    q   p   -   s
//! watched  yes no  -   yes       add r 4 5: inserted into q, and its log has it; into s, and its log
//!                                too; p isn't looked at. If s finds no memory, it is removed from q
//! ```
//!
//! Inside, what a batch does is stated over a chain of catalogs, one for each group, which the proofs alone have: the
//! caller's catalog has all rows before the first query is asked. Answers are only added along it, so the deltas of its
//! steps, one after another, are the delta of the whole; and the rows are removed again along a chain with one row less
//! at each step.
#![tactic(auto)]

pub use batch::{clear_logs, insert_batch_into_readers};
pub use group::{Group, GroupRows};
pub use places::is_watched;
pub use query_places::QueryPlaces;
pub use reach::{delete_from_readers, empty_logs, insert_into_readers, outdate};
pub use rows::insert_all_into_readers;

mod batch;
mod group;
mod places;
mod query_places;
mod reach;
mod rows;
