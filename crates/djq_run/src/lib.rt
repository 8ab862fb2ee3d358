//! The loop of `djq run`: one session of a join machine, from a source to a sink.
//!
//! [`run_session`] opens session 1, reads pieces, feeds them to the machine, runs each whole line
//! that they complete and writes what it answers before the next line is run. It is generic in the
//! machine, the source and the sink, so it is proved from their contracts alone. What it promises
//! is that the machine followed a course of the program from the state that it had to the state that
//! it has. The [`Status`] reports how far it got and which faults there were.
//!
//! What this crate is not: it buffers nothing, allocates nothing, and knows no command.
//!
//! What surprises: it never reads ahead. A piece that was read is fed, run and answered before the
//! next read, so a client that waits for a reply always gets it. And a write that failed is the
//! last thing that a run does ([`failed_write_is_last`]).
//!
//! ```text
//! read    rel r int, add r 7, add      at most as many bytes as the buffer has
//! write   ok                           once rel r int is run
//! write   ok added 1 1                 once add r 7 is run; add waits for its end
//! read    r 8, quit
//! write   ok added 2 1
//! write   bye                          and nothing is read after it: the status is Done
//! ```
//!
//! Inside, `session` has the loop in three: a read and what it brings, the lines that a session
//! holds, and the writes after each. The bytes that a write accepted are removed from the machine before the next one.
//! `status` has what the exit status of the process is, for the other commands too. A course is a
//! definition of djq_run_laws (`specs/Course.antt`), and what holds of every course is a law there.
#![tactic(auto)]

mod laws;
mod session;
mod status;

pub use laws::failed_write_is_last;
pub use session::run_session;
pub use status::Status;
