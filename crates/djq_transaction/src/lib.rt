//! Transactions: lines that add and delete copies of rows, done as one change or not at all.
//!
//! A [`Transaction`] holds lines in one buffer: each with its row, and its bytes for the log. [`judge_done`] judges
//! `done`: the number that it names; then the held lines in their order, each over the rows that are there and what the
//! lines before it leave (this is [`judge_all`]); then the number of changes. It returns the [`Net`] of a transaction
//! that isn't refused: each row that the lines name, once, with its copies before the transaction and after it. A row
//! is inserted if it had no copy before and has one after; it is removed if it had one before and has none after.
//!
//! ```text
//! r int int         rows, copies    (1, 10) 1   (2, 5) 1
//!   add r 1 11                                       before  after
//!   del r 1 10      net             (1, 11)               0      1   inserted
//!   add r 3 3                       (1, 10)               1      0   removed
//!   del r 3 3                       (3, 3)                0      0   neither
//!   add r 2 5                       (2, 5)                1      2   neither
//! ```
//!
//! A net is then applied. [`group_rows`] lists the rows that are inserted and those that are removed, by their
//! relations: so all memory that they need is there before any row changes. [`insert_rows`] inserts the first in a
//! catalog, or none of them, out of memory. [`remove_rows`] then removes the others and gives the rows that stay their
//! copies; it needs no memory. [`undo_rows`] removes the inserted ones again instead, and needs none either: so a
//! transaction can be given up as long as no other row has changed. Between the two calls each row is there that is
//! there before or after. [`lines_settle`] is the law of what this does to answers, [`lines_lead`] that of the groups.
//!
//! ```text
//! before (1, 10) 1   (2, 5) 1      between (1, 10) 1   (2, 5) 1   (1, 11) 1      after (2, 5) 2   (1, 11) 1
//! ```
//!
//! It updates no query and parses no line, and a line's relation and types are tested before the line is held.
//!
//! What surprises: a refused transaction leaves the texts of the lines before the refused one known. A row that is
//! added and deleted again is neither inserted nor removed; but until the last line is judged it counts at the limit
//! of its relation's rows.
//!
//! Inside, a row is found by its key: its relation's place, its cells, and zeros up to one width for all relations.
//! The keys are in an arena of `djq_arena`, which is made with the first key; no row is ever removed, so the slot of
//! a key is its place, and its copies are at the same place of a list.
#![tactic(auto)]

mod apply;
mod copies;
mod done;
mod groups;
mod held;
mod judge;
mod key;
mod keys;
mod laws;
mod net;
mod transaction;

pub use apply::{insert_rows, remove_rows, undo_rows};
pub use done::judge_done;
pub use groups::{Groups, group_rows};
pub use held::Transaction;
pub use keys::Keys;
pub use laws::{lines_lead, lines_leave, lines_settle, lines_suit};
pub use net::{Copies, Net};
pub use transaction::judge_all;
