//! What a program meets outside: sources of bytes, sinks of bytes, and a hub of sessions.
//!
//! A [`Source`] has bytes left and pieces given, a [`Sink`] has its writes with their answers, and
//! a [`Hub`] has a script of further turns and a past. Contracts name them, if they are shown, as
//! `Some`, and one that shows nothing is `None`. So code that is generic in them is proved once for
//! those in memory and those of the system, and a claim on bytes is made if they are shown when the
//! call returns.
//!
//! Each of the three counts its faults, and a hub also those of each session. A call answers
//! `Failed` only if its count *rose*: it is greater than at the call's start, or is at the
//! end of its range. Every other answer leaves the count as it was, and no count falls.
//!
//! ```text
//! script of a hub   1 opens     1 brings rel r int    1 ends     nothing left
//! turn              Opened(1)   Bytes(1, 9)           Ended(1)   Over
//! past, after it    the four turns, with the bytes, and each send and close in between
//! ```
//!
//! What this crate is not: it buffers nothing, retries nothing, and reads no lines.
//!
//! What surprises: an object in memory may lose its record, if the memory for it was refused. It
//! still answers calls, and claims nothing from then on. A turn of a script that can't occur reads as nothing.
//!
//! [`MemSource`], [`MemSink`] and [`MemHub`] are in memory, show everything, and fail only at the
//! calls that were named to them; a [`SteadyHub`] never fails. Those over the operating system are
//! djq_system's. [`Sessions`] has the ids and counts that every hub shows.
//!
//! How it works inside: a record is a list or lost. The calls that are to fail are counted down,
//! and those at 0 are the faults so far. A script is a queue, preceded by the rest of a piece that was
//! longer than the buffer.
#![tactic(auto)]

mod failing;
mod hub;
mod id_list;
pub mod limits;
mod mem_hub;
mod mem_sink;
mod mem_source;
mod piece;
mod recording;
mod script;
mod sessions;
mod sink;
mod source;
mod steady_hub;

pub use failing::{Failing, FailingSend};
pub use hub::{Class, Coming, Hub, Incoming, Listened, Sent, Told, Turn};
pub use id_list::IdList;
pub use mem_hub::{HubCall, MemHub};
pub use mem_sink::MemSink;
pub use mem_source::MemSource;
pub use piece::Piece;
pub use recording::Recording;
pub use sessions::Sessions;
pub use sink::{Sink, Write, Written, Wrote, write_all};
pub use source::{Read, Source};
pub use steady_hub::SteadyHub;
