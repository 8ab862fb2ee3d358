//! What a whole run of the program does, and what follows from it.
//!
//! `specs/Ends.antt` defines what a run reads, writes and logs, for each command: `ProgramEnds` is the promise
//! of the program's top call. The functions here are empty, and their contracts are laws of that promise.
//! A finished cursor has listed every answer, a subscribed session stays live, what a session was sent is
//! read back by the mirror, and what a crash leaves of a log opens again: at the end, and at each moment before.
//!
//! ```text
//! ProgramEnds  ->  FinishedCursors, RunIsLive, ServeIsLive, RunIsReadBack, ServeIsReadBack, LogsReopen,
//!                  MomentsReopen
//! Serving      ->  HaveListed, StayLive, AreReadBack, of `serve` and of `replay`
//! ```
//!
//! What surprises: no law needs to know how the join machine is made. So this crate depends on the
//! machine's contract, and on no store.
//!
//! What this crate is not: it runs nothing. djq_program has the calls that fulfil the promise, and cites the
//! lemmas in `proofs/` of how logs open and how runs continue.
//!
//! Inside, `laws` has the laws, `served` those that hold of every serving, under whichever command, and `limits`
//! how many turns a round of `serve` has.
#![tactic(auto)]

mod laws;
pub mod limits;
mod served;

pub use laws::{
    finished_cursors_have_listed, logs_reopen, moments_reopen, run_is_read_back, run_stays_live,
    serve_is_read_back, serve_stays_live,
};
pub use served::{served_are_read_back, served_cursors_have_listed, served_stay_live};
