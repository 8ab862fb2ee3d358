//! Laws on the lines that a run of the join machine logs: loaded, they give what the run left.
//!
//! Each function here is empty: its contract is the law, and its proof concerns no code. A run
//! logs the lines of `rel`, `add`, `union` and `drop` that weren't refused, of `del` if a copy
//! was deleted, and of `query` if it was registered. Of a batch that was done it logs `batch`, the lines that it
//! held, which insert and delete, and `done` without a number, as one group (djq_machine, `specs/Keeping.antt`).
//!
//! ```text
//! rel r int       logged        loaded into an empty store, the eight logged lines give
//! add r 7         logged        r with two copies of the row (8) and one of (9), no
//! add r 8         logged        query, and 3 changes, as the run left it
//! del r 9
//! has q 7
//! batch
//! add r 8         held
//! add r 9         held
//! del r 7         held
//! done 3          logged: batch, add r 8, add r 9, del r 7, done
//! ```
//!
//! What this crate is not: it writes no lines and reads none. It states what whoever writes them to a log
//! and loads them at the next start may rely on.
//!
//! What surprises: what is logged is the line as it was received, and loading it runs it anew. A store that
//! is loaded *follows* the one that was left: rows, each with its copies, may be in another
//! order, and texts that no row or query of it has may be unknown. Cursors, watches, sessions and
//! batches that aren't done aren't logged. No logged line is refused as it is loaded, though memory may be
//! wanting.
//!
//! Inside, djq_machine's `specs/Loading.antt` defines what loading a line does to a store and to the batch
//! of the lines before it, and `specs/Kept.antt` has the laws. [`kept_lines_load`] is from any store that
//! follows the first, [`runs_reload`] from lines that were there before, and [`stops_reload`] if a
//! crash left the first groups of lines, whole.
#![tactic(auto)]

ghost use Rattle.djq_log_laws.specs.Kept.{FoundIsStart, AbandonRuns, AbandonedAreLoaded, KeptLinesLoad};
ghost use Rattle.djq_log_laws.specs.Kept.{FollowersHaveCopies, RunsReload, StopsReload, KeptAreLines};

/// What lines, found at a start, give is a state to start from, if they leave no batch open.
/// Relations, queries and known texts are without repeats, and so are the rows of a relation; these
/// are of its columns' types, each with one copy at least and no more than may be. Queries are
/// free-connex, and the members of unions are registered.
pub fn found_is_start()
    ensures { FoundIsStart }
{}

/// Lines, found at a start, may leave a batch open. The line `abandon` after them always runs and ends
/// it: they load to the same rows with the same copies, the same queries and number of changes.
pub fn abandoned_are_loaded()
    ensures runs { AbandonRuns }
    ensures loads { AbandonedAreLoaded }
{}

/// The lines that a run logged, from a sound state on, loaded into a store that follows the one it began
/// with, are all accepted. They give a store that follows the one it left: the same rows with the same
/// copies, in some order, the same queries and number of changes.
pub fn kept_lines_load()
    ensures { KeptLinesLoad }
{}

/// A store that follows another has as many copies of each row.
pub fn followers_have_copies()
    ensures { FollowersHaveCopies }
{}

/// A run that began with what lines, found at its start, gave: these lines and those that it logged
/// give what it left.
pub fn runs_reload()
    ensures { RunsReload }
{}

/// What a crash leaves: the lines found at a run's start and the first groups that it logged, whole,
/// give what it had when it had logged just these.
pub fn stops_reload()
    ensures { StopsReload }
{}

/// A group that a run logs has a line at least, and each of its lines has a byte at least and no
/// more than a line may have.
pub fn kept_are_lines()
    ensures { KeptAreLines }
{}
