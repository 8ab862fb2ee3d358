//! Rows of one width, in the order in which they came, found by their cells.
//!
//! An [`Arena`] holds rows of numbers. Each lies in a slot whose number stays while the row is
//! there, so whoever keeps more of a row keeps it in an array of its own, by the slot's number. A
//! row may be put behind all others without leaving its slot.
//!
//! It is no map and no set: it doesn't ask whether a row is there before it takes it. Contracts see
//! the list of rows; how they are hashed and chained stays inside.
//!
//! What surprises: the slot of a removed row is used for the next one that comes. The hash has no
//! seed: it spreads rows well, and doesn't resist one who chooses rows that fall into one bucket. Whoever
//! looks for a row and then puts it in hashes it once: by [`hash_of`], for the calls that take the hash.
//!
//! ```text
//! push 7 7   slot 0      rows, the oldest first    7 7   8 8   9 9
//! push 8 8   slot 1
//! push 9 9   slot 2
//! renew 0                                          8 8   9 9   7 7     still in slot 0
//! remove 1                                         9 9   7 7
//! push 5 5   slot 1                                9 9   7 7   5 5
//! ```
//!
//! Inside, all cells lie in one array. An array of pairs chains the slots doubly in the order of
//! coming, and one of links chains those of each bucket, in any order, so that a row that is put
//! behind all others stays where it is in its bucket. A row that goes is looked for in its bucket from
//! the head. Links are four bytes. [`Pair`], [`Ends`] and the functions that change them serve chains
//! over slots that others keep, too, and one proof serves them all.
#![tactic(auto)]

mod arena;
mod chain;
mod link;
mod store;

pub use arena::Arena;
pub use chain::{Ends, Pair, ends_after_push, enter, leave, pair_of};
pub use link::{Link, SLOTS};
pub use store::hash_of;
