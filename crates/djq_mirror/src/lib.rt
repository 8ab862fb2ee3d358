//! The answers of one query, from the bytes alone that a session was sent.
//!
//! A [`Mirror`] is handed one line after another. It knows no rows and asks nobody: it follows what
//! the lines report of a listing and of the changes after it. `specs/Replies.antt` defines which lines a
//! session can be sent, form by form, and `specs/Mirror.antt` what each does.
//!
//! ```text
//! ok open      the answers are dropped       Listing
//! = 1          put in
//! = 2          put in
//! end                                        Live
//! + q 3        inserted
//! at q 3
//! - q 1        removed
//! stale c r 5                                Idle: the answers aren't known any more
//! ```
//!
//! [`Mirror::write`] appends the answers in byte order if all of them are known, else `none`.
//!
//! What this crate is not: a client. It has the answers of one query, of one cursor at a time.
//!
//! What surprises: answers are stored as they were printed, so that none is made. A line of another
//! query's name does nothing, but a stale cursor is believed of any name, since a cursor's line
//! doesn't contain its query. A number is a line's only as djq prints it, without zeros before it.
//!
//! Inside, `parts` cuts bytes at a sign, `words` and `cells` read what is between, `forms` and
//! `told` read a line, `turn` is the table of what it does, and `texts` the set.
//!
//! # The loop of `djq mirror`
//!
//! [`run_mirror`] reads what a session was sent from a source, piece by piece, to the source's end or to
//! the first line that a mirror can't follow, and writes the answers after it. Its contract promises so of the
//! bytes that were read, however they are cut into pieces.
//!
//! ```text
//! read    ok watch 0, ok open, = 2, = 1, e     the front of a line waits
//! read    nd, + q 3                            the last line lacks its LF
//! end
//! write   mirror 6                             Mirrored::Outside(6)
//! ```
//!
//! Lines are lent from the buffer that was read into. Only a line that a piece leaves unfinished is
//! copied. Of one that is too long no more is stored than a piece above the limit, and the source isn't
//! read any further then.
#![tactic(auto)]

pub use command::{Mirrored, run_mirror};
pub use mirror::{Mirror, MirrorRefusal};
pub use mode::{Mode, REPLY_LINE_BYTES};

mod cells;
mod command;
mod follower;
mod forms;
mod mirror;
mod mode;
mod parts;
mod reading;
mod texts;
mod told;
mod turn;
mod words;
