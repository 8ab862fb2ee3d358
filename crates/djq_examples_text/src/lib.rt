//! Examples of the libraries of text and sessions, and of those of what a program meets outside.
//!
//! Each module calls one library as its users do, with ample memory, and asserts what the calls return
//! or write. The examples are tests, and are a crate of their own so that no library is proved
//! twice: a crate with tests is. Nothing here is public, and no crate uses this one.
//!
//! ```text
//! module     library        examples of
//! value      djq_value      tokens, values that are read and printed
//! words      djq_cli      the words of the command line
//! proto      djq_parser      lines and commands
//! reply      djq_reply      replies and end lines
//! session    djq_session    what is held for a session
//! mirror     djq_mirror     answers that follow the lines of a session
//! follow     djq_mirror     the loop of a mirror
//! schedule   djq_schedule   schedules of a hub, and what a hub sent
//! load       djq_load        the lines of a generated load
//! io         djq_io         sources, sinks and hubs in memory
//! journal    djq_journal    logs of the first format, and what a crash leaves of them
//! log        djq_log        logs that are made, read and appended to, of either format
//! log_file   djq_log_file    logs of the second format: read, damaged, appended, after a crash
//! file       djq_system       a file as a disk
//! net        djq_system        a hub over TCP
//! ```
#![tactic(auto)]

#[cfg(test)]
mod file;
#[cfg(test)]
mod follow;
#[cfg(test)]
mod io;
#[cfg(test)]
mod journal;
#[cfg(test)]
mod load;
#[cfg(test)]
mod log;
#[cfg(test)]
mod log_file;
#[cfg(test)]
mod mirror;
#[cfg(test)]
mod net;
#[cfg(test)]
mod proto;
#[cfg(test)]
mod reply;
#[cfg(test)]
mod schedule;
#[cfg(test)]
mod session;
#[cfg(test)]
mod value;
#[cfg(test)]
mod words;
