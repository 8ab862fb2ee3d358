//! A journal, which is a log of the first format: lines in a file, stored in groups that are whole at every moment.
//!
//! A file begins with a header of 8 bytes, followed by a gate, which is one byte. An open gate is followed by
//! a line's length in two bytes, the line and the next gate; any other gate ends the
//! list. [`Journal::first`] is a journal before its first line, and [`Journal::next_line`] reads line after line.
//! Once that answered `End` the journal is idle, and [`Journal::append_all`] appends a group of lines.
//!
//! No journal is made any more: a new log is of the second format. `djq_log` reads and appends both, and
//! `djq_log_file` finds out which of the two a file is.
//!
//! ```text
//! place  0        8  9    11         20  21   23       30
//! bytes  DJQLOG1  1  0 9  rel r int  1   0 7  add r 7  0
//! ```
//!
//! A group is written after the closed gate, its own gates open, and synced; then the gate is opened
//! and synced. A gate is one byte, so whatever a crash leaves of it, it is open over whole records that
//! were synced, or it isn't open. So at every moment a crash leaves the lines before, or those and the
//! whole group; two syncs a group suffice, however many lines it has. Its records are gathered and written
//! in pieces of up to 16 KB, so a group of short lines needs few calls of the disk; the buffer is the
//! call's own, and no call allocates.
//!
//! What it isn't for: it never shortens a file, deletes no line, and knows nothing of what a line means.
//!
//! What surprises: after a failed append the journal is lost, since nobody knows whether the group is
//! there. The next start shows it. What follows the gate that ends the list doesn't count.
//!
//! To read first: `specs/Format.antt`, what file opens to which lines, and `specs/Appending.antt`. The
//! laws below state that a file opens to one list of lines, and that an idle journal outlives a crash.
//!
//! How it works inside: `reading` reads the place of a gate, `appending` writes a group there, and a
//! journal is the place alone.
#![tactic(auto)]

mod appending;
mod group;
mod journal;
mod limits;
mod line;
mod one_line;
mod reading;

ghost use Rattle.std.specs.Prelude.{ℕ, List};
ghost use Rattle.djq_journal.specs.Format.{FileOpensOnce, OneOfThree};
ghost use Rattle.djq_journal.specs.Standing.{IdleLasts};
ghost use Rattle.djq_journal.specs.Calls.{ReadsExactly};

pub use group::Group;
pub use journal::{Appended, Journal};
pub use limits::{LAST_GATE, LINE_BYTES};
pub use line::Line;
pub use one_line::OneLine;

/// A file opens to one list of lines.
pub fn a_file_opens_once()
    ensures { FileOpensOnce }
{}

/// A place in a file isn't two of these: the end of the list, that of a record, and bad.
pub fn a_place_is_one_thing()
    ensures { (rest : List ℕ) → OneOfThree rest }
{}

/// An idle journal outlives a crash.
pub fn an_idle_journal_lasts()
    ensures { IdleLasts }
{}

/// A journal ends and is bad if and only if the bytes of the file mean so, unless the disk fails.
pub fn answers_are_exact()
    ensures { ReadsExactly }
{}
