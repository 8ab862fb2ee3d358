//! A dictionary of texts: each different text has a number, and each number its text.
//!
//! A [`Dict`] only grows. Texts are numbered from 0 in the order in which they become known, and
//! contracts see the list of them, in which a text's number is its position. Rows store the number
//! in place of the text, so that two cells are equal if and only if the texts are.
//!
//! It isn't a general map: no text is ever removed, and nothing is stored with it. A text is any
//! list of bytes here. What is read out is byte for byte what was inserted, so a caller that
//! inserts UTF-8 alone reads UTF-8 alone.
//!
//! The surprise: the hash is the same in every run. A client that chooses the texts can make many
//! of them fall into one chain, which makes them slow to find.
//!
//! ```text
//! intern "ab" -> 0     bytes  a b c d e            heads  (one for each bucket)
//! intern "cde" -> 1    ends   2 5                     |
//! intern ""   -> 2            5                     link 2 -> link 0 -> end
//! intern "ab" -> 0                                  link 1 -> end
//! ```
//!
//! Inside, all bytes are in one buffer and a list has the end of each text, so that no text is an
//! allocation. A hashed index leads from a text back to its number. It has one link for each text,
//! with the lower half of its hash, and the links of a bucket form a chain from its latest text to
//! its earliest. There are at least as many buckets as texts, so a chain has about one link.
//! Finding or adding a text needs time that doesn't grow with the texts, but for the rare
//! rebuilding when the buckets are doubled.
#![tactic(auto)]

mod chain;
mod dict;
mod index;
mod refusal;
mod texts;

pub use dict::{Dict, MOST_TEXTS};
pub use refusal::InternRefusal;
