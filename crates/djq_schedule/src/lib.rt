//! Schedules of `djq replay`: lines that define, turn by turn, what a hub in memory brings.
//!
//! ```text
//! open 1              session 1 opens
//! say 1 rel r int     a line of it arrives
//! part 1 add r        a part of a line
//! again 1             from here on it reads nothing
//! free 1              it reads all again
//! end 1               its input ends
//! ```
//!
//! [`schedule_hub`] makes the hub of a schedule, or returns which line is the first that is outside
//! the grammar of `specs/Schedule.antt`. [`sent_text`] returns what a hub sent, line by line, and
//! [`outside_line`] the line that reports that one is outside.
//!
//! What this crate is not: it runs nothing, and it knows nothing of the lines that sessions send.
//!
//! What surprises: whether a line is in the grammar depends on those before it, since it may name
//! none but sessions that were opened and whose input hasn't ended. `again` and `free` are turns
//! too, which bring nothing. What a session was sent after its last line end isn't in the text.
//!
//! Inside, `line` reads a line's keyword, session and text, `sessions_so_far` has what the lines
//! before it define of sessions, and `schedule` appends a turn for each to a hub's script. `sent`
//! reads the record of a hub's calls, and stores for each session the bytes after its last line
//! end.
#![tactic(auto)]

mod line;
mod schedule;
mod sent;
mod sessions_so_far;

pub use line::Keyword;
pub use schedule::{ScheduleRefusal, count_lines, schedule_hub};
pub use sent::{outside_line, sent_text};
