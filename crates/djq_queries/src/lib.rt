//! What a change does to the registered queries, if it inserts and deletes rows of several relations at once.
//!
//! [`change_readers`] inserts groups of rows, each of a relation, into the queries in their places
//! (djq_reach's `insert_batch_into_readers`), and then deletes others from them
//! ([`delete_batch_from_readers`]). The log of a watched query has then the answers that the insertions added, and
//! after these the answers that the deletions removed. At the end these logs are settled: an answer with both signs is
//! no change. What is left is the delta of the whole change ([`changed_logs_settle`] is this law of changes).
//!
//! It has no state, and it knows no catalog: the caller's has all rows changed before the first query is asked.
//!
//! ```text
//! q(x,z) <- r(x,y), s(y,z)       r: (1,5)   s: (5,8)
//!
//! add r 3 5, add r 2 6,          the log: + (3,8)   + (2,9)   - (1,8)   - (3,8)
//! add s 6 9, del s 5 8           settled: - (1,8)   + (2,9)
//! ```
//!
//! What surprises: deletions use no memory but the logs', so once all rows are inserted nothing can be refused; a
//! log that finds none is lost. A log with both signs is sorted in place to be settled, so its lines are in another
//! order than that of listing; a log of one sign stays as it is.
//!
//! Inside, it is stated over a chain of catalogs, one for each group, which the proofs alone have. The first half only
//! adds answers and the second only removes some, so the deltas of the steps of each, one after another, are one. Only
//! a query that a deletion reaches has both signs in its log, so the others aren't settled. Equal values have equal
//! cells, so lines that cancel out are changes that do.
#![tactic(auto)]

pub use change::change_readers;
pub use gone::delete_batch_from_readers;
pub use laws::{changed_logs_settle, groups_settle, rows_follow_groups};

mod change;
mod gone;
mod laws;
mod settling;
