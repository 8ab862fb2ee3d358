//! The limits of the protocol. The most bytes of a name and of a text are beside these types, in
//! djq_model.

use djq_value::KEPT;

/// The most bytes of a line, without its LF and one CR before it.
pub const LINE_BYTES: usize = 4096;

/// The most columns of a relation.
pub const COLUMNS: usize = 16;

/// The most relations.
pub const RELATIONS: usize = 256;

/// The most registered queries and unions.
pub const QUERIES: usize = 256;

/// The most members of a union.
pub const MEMBERS: usize = 8;

/// The most atoms of a query.
pub const ATOMS: usize = 32;

/// The most variables of a query, each hole one of its own.
pub const VARIABLES: usize = 128;

/// The most variables of a query's head.
pub const HEAD_VARIABLES: usize = 16;

/// The most comparisons of a query.
pub const COMPARISONS: usize = 32;

/// The most rows of a relation.
pub const ROWS: usize = 4_294_967_295;

/// The most copies of a row.
pub const COPIES: u32 = 4_294_967_295;

/// The most texts that are known.
pub const TEXTS: usize = 4_294_967_295;

/// The greatest number of accepted changes of rows.
pub const LAST_SEQ: u64 = 18_446_744_073_709_551_615;

/// The most cursors of a session.
pub const CURSORS: usize = 16;

/// The most lines that a batch holds.
pub const HELD: usize = 65_536;

/// The most bytes of the lines that a batch holds.
pub const HELD_BYTES: usize = 16_777_216;

/// The number as which `done` reads each larger one. No batch holds as many lines.
pub const LAST_COUNT: u32 = 4_294_967_295;

/// The most sessions that are open at once.
pub const SESSIONS: usize = 64;

/// The most answers that one `next` asks for.
pub const NEXT_COUNT: u32 = 1000;

/// The most bytes that are pending as a command begins.
pub const PENDING_BYTES: usize = 1_048_576;

/// The bytes of room that are reserved for a reply before its command begins.
pub const REPLY_BYTES: usize = 256;

/// The bytes of room that are reserved for a session's last line as long as the session is open:
/// those that printing leaves.
pub const LAST_LINE_BYTES: usize = KEPT;
