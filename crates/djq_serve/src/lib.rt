//! The loop of `djq serve` and `djq replay`: many sessions of a join machine, over a hub.
//!
//! [`serve`] works in rounds. A round reads a turn of the hub, which may wait, and then further ones while one is
//! at hand. What they bring is fed to the machine: a session that opens is admitted, and bytes of a session are
//! held. Then the lines that the sessions have are run, one of each session in turn, and then what is pending for
//! the open sessions is sent. It is generic in the machine and the hub, so it is proved from their contracts alone.
//! What it promises is one sentence: the server made move after move, from its first turn to its answer, and
//! [`Served`] is the precise reason for which it ended.
//!
//! [`serve_logged`] does the same with a log, of either format. The lines that change the store are logged in
//! commits: what the lines of a commit log is appended as one group, with two syncs, before anything is sent that
//! one of them queued. A commit ends when no line is left, or earlier: at [`COMMIT_LINES`](limits::COMMIT_LINES)
//! lines, when the hub is late or when the machine has no room. Then it is flushed, and the round continues with
//! the next session's line. A batch is logged so with the line that ends it, all its lines or none. The logged
//! lines are those that were received, so running them again gives the store (djq_log_laws). If a commit can't be
//! logged serving ends, without another byte: the machine made its changes, but nothing of the commit is
//! acknowledged to anybody. The disk may have failed, and then the log has the whole commit or nothing of it
//! ([`Served::DiskFault`]). Or the log had no room, and nothing was written ([`Served::LogFull`]). [`serve`] is one
//! call of it, with a log that is nowhere and a disk that stores nothing.
//!
//! What this crate is not: it buffers nothing, allocates nothing, knows no command and no socket.
//!
//! What surprises: every line that a round brings is run in it, so no line waits for the next. The end of a
//! session's input ends the gathering, and is carried out after the lines of the round. A session
//! that accepts nothing now is passed over, so that it delays no other. A session that isn't admitted is
//! offered one line, `end full` or `end memory`, once, and closed. Serving may end at the disk although a
//! session sent `stop` in the same commit: its `bye` isn't sent then either.
//!
//! ```text
//! round  1 opens, and brings           let in, and fed; then rel r int is run, and ok sent;
//!        rel r int, add r              add r has no end, and waits
//! round  1 brings 7, add r 8           add r 7 and then add q 1 of session 2 are run, and then add r 8;
//!        2 brings add q 1              the three are logged as one group, and their replies sent
//! round  2 brings stop                 bye is sent, and no line is run after it
//!                                      both are closed, and the answer is Stopped
//!
//! if the disk fails in the second round
//!                                      nothing is sent, 1 and 2 are closed, and the answer is DiskFault
//! the log has                          rel r int; and the three lines, or none of them
//! ```
//!
//! To read first: `specs/Server.antt`, from `MakesMove` at its end backwards. It is a relation of one
//! move: the server's state, what it asks the hub, which step the machine makes, what it hands to the log, and
//! the server's state after it. All that holds of whole runs are laws over these moves (`specs/Ends.antt`,
//! `specs/Fair.antt`). What a log contains of them is in `specs/Logged.antt`, and also that a line that isn't
//! logged isn't answered.
//!
//! How it works inside: `gathering` reads the turns of a round, `running` runs its lines, `committing` logs them
//! and flushes, `flushing` sends to sessions and closes them, `finishing` ends the round, and `serving` serves
//! rounds and closes what is left.
#![tactic(auto)]

mod commit_lines;
mod committing;
mod finishing;
mod flushing;
mod gathering;
pub mod limits;
mod rest;
mod running;
mod served;
mod serving;

pub use served::Served;
pub use serving::{serve, serve_logged};
