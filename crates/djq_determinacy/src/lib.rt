//! How much of what the machine and the server do is determined, and what of it no memory is needed for.
//!
//! The definitions of djq_machine say what a step may do, as a relation: so they could be loose, and allow a reply that
//! nobody meant. Each function here is empty, and its contract is a law that says how far they aren't.
//!
//! ```text
//! steps_are_determined         two steps of one event, to neither of which memory is refused, queue the same
//!                              and leave the same store
//! rests_agree                  whatever steps a reduction takes, the same edges remain
//! never_refused_for_memory     del, drop, next, close, has, unwatch, explain, shape, abandon, quit, stop
//! prefixes_return              a run of serve that is cut off is a first part of one that returns
//! exchanges_are_answered       has q 7: yes, and not yet
//! dialogues_are_runs           add r 7, add r 7: ok added 1 1, ok added 1 2, and not ok added 1 1 again
//! ```
//!
//! What "the same" leaves open is said by `SameText`: the order of the answers on a page and of the changes in a delta,
//! and, on a page that isn't the last, which answers come first. The rows of a store may stand in another order.
//!
//! What this crate is not: nothing is said of when memory is refused. Any command that needs some may be refused at any
//! time, and any session end.
//!
//! What surprises: a `del` may be refused for memory while its line is read, and never once it is read.
//!
//! Inside, `proofs/Steps.antt` goes through the events and the commands. What a change of rows tells is followed delta by
//! delta and session by session in `ChangesSame.antt`. That a query that isn't free-connex has one rest is in
//! `RestsSame.antt`: what two ways of reducing its edges come to covers each other. That a dialogue is the only run of its
//! lines rests on `run_same` in `Steps.antt`: two steps of one line, memory aside, leave one state, with its sessions, unless
//! the line is `next`, by which a cursor may give other answers; and rows have one order where a relation has one row at most.
#![tactic(auto)]

ghost use Rattle.djq_determinacy.specs.Determinacy.{StepsAreDetermined};
ghost use Rattle.djq_determinacy.specs.Dialogues.{AllAnswered, exchanges};
ghost use Rattle.djq_determinacy.specs.Memory.{NeverRefusedForMemory};
ghost use Rattle.djq_determinacy.specs.Prefixes.{PrefixesReturn};
ghost use Rattle.djq_determinacy.specs.Reductions.{RestsAgree};
ghost use Rattle.djq_determinacy.specs.Sessions.{AreDialogues, dialogues};

/// Two steps of one event from one state, to neither of which memory is refused, queue the same to each session, up to
/// the order of a listing, and leave the same store, up to the order of rows.
pub fn steps_are_determined()
    ensures { StepsAreDetermined }
{}

/// All rests of a hypergraph have the same edges. So a query that isn't free-connex has one reply.
pub fn rests_agree()
    ensures { RestsAgree }
{}

/// Which commands are never refused for memory: those that take away, ask or end, once they are read.
pub fn never_refused_for_memory()
    ensures { NeverRefusedForMemory }
{}

/// A run of `serve` that is cut off, at any move, is a first part of one that returns: at each point the hub may be over.
pub fn prefixes_return()
    ensures { PrefixesReturn }
{}

/// Twelve exchanges of a session: each may be answered so, and with one byte of the reply changed it may not.
pub fn exchanges_are_answered()
    ensures { AllAnswered exchanges }
{}

/// Thirteen dialogues of two to eight lines, over an empty store: each is a run of the machine, and with one byte of what
/// is queued for its last line changed it is none.
pub fn dialogues_are_runs()
    ensures { AreDialogues dialogues }
{}
