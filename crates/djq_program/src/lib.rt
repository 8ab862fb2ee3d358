//! The program as a library: what the words of a command line do to any source, sink, hub and disk.
//!
//! [`run_program`] is the whole of it. Its contract states what was written: the replies of a run of the
//! join machine, so it is the theorem of the whole product. And it states what a crash at any moment leaves
//! of the log. [`Telling`] is a standard stream that prints why the system failed it.
//!
//! ```text
//! run_program(alloc, ["djq", "run"], source, sink, hub, disk, steps)
//!
//! source  rel r int, add r 7       each line is read, run and answered
//! sink    ok, ok added 1 1         and at the source's end the status is Done
//! ```
//!
//! What surprises: help and version words are no command, and are answered by the usage line. Under `serve`
//! replies are sent a commit at a time: to all sessions, once what its lines log is in the log. What the
//! theorem states of bytes holds if the source, sink or hub records them, as the real sink and hub do; of
//! the real source and disk it states which calls were made and what their answers did.
//!
//! What this crate is not: it opens no file and no socket, and reads no command line. The program's
//! `main` makes the real source, sink, hub and disk. A server of another kind is another
//! [`run_program`] over the crates below.
//!
//! Inside, `program` has an arm for each command, `replay` and `load` what two of them do, and `log` opens
//! and loads the file. What the contracts state of whole runs, and the laws of that, are in
//! djq_program_laws.
#![tactic(auto)]

mod load;
mod log;
mod program;
mod replay;
mod telling;

pub use djq_run::Status;
pub use program::run_program;
pub use telling::Telling;
