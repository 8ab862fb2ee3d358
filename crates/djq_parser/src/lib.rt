//! From a session's bytes to lines, and from a line to a command.
//!
//! [`Splitter`] finds the line at the front of the bytes that a session holds, and [`read_command`]
//! returns the command that a line denotes. [`read_row`] reads lines of rows, which are most lines,
//! by the same grammar into room that its caller owns. Nothing here stores state between lines, and
//! only what a command holds (types, a row, a query) needs memory.
//!
//! ```text
//! add edge 1 -20       Command::Add { name: edge, row: (1, -20) }
//! add edge 1 x         Syntax: x is no literal
//! add edge 1 99999999999999999999      Range: past 64 bits
//! next c 1001          Syntax: a count is from 1 to 1000
//! done 99999999999     Command::Done { count: Some(4294967295) }: larger ones are read as this
//! ```
//!
//! It runs no command, and asks nothing of relations and queries: whether a relation exists and a
//! row suits it is decided by the engine. It prints nothing; djq_reply does.
//!
//! What surprises: a line without an end may be refused already. [`Splitter::front`] answers that
//! it is too long as soon as no end could make it short enough, and looks at no more than 4,098
//! bytes for that. A literal past its limit is `Range` only if the line is in the grammar.
//!
//! Inside, a line is cut into tokens by the lexer of djq_value. `keyword` determines by the first
//! token what has to follow: `command` has a reader for each form, over names, literals and lists
//! of them (`parts`, `item`, `items`). `row` reads rows into room, `query` reads a query's head,
//! and `body` its atoms and comparisons. `laws` has two functions that do nothing. They promise
//! that a line is read as a command if and only if it spells it, stated without reading
//! (`specs/Saying.antt`, and `specs/Spelling.antt` of djq_value).
#![tactic(auto)]

pub use command::read_command;
pub use laws::{commands_are_said, commands_are_spelled};
pub use refusal::LineRefusal;
pub use row::{RowLine, RowWord, read_row};
pub use splitter::{Front, Splitter, is_blank};

mod body;
mod command;
mod item;
mod items;
mod keyword;
mod laws;
mod parts;
mod query;
mod refusal;
mod row;
mod splitter;
