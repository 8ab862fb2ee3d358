//! A dictionary of texts in use: each has a number, and is forgotten with its last use.
//!
//! A text is any list of bytes. Contracts see a list with a place for each number: the text that has it with how often it is
//! used, or nothing if the number is free. No two places have the same text, and a text's number doesn't change while it is in
//! use. What each call does is stated of each number: the one that it is about, and all others.
//!
//! The program doesn't use this crate yet. It is to replace `djq_dictionary`, which only grows.
//!
//! What surprises: a number that is free is given to another text. So whoever stores a number holds a use of its text.
//! The hash has no seed: a client that chooses the texts can make many of them fall into one bucket. And the places for
//! numbers become fewer only down to the highest number in use, since no number changes.
//!
//! ```text
//! use "ab"      -> 0     0 "ab" used once
//! use "cde"     -> 1     0 "ab" used once     1 "cde" used once
//! use "ab"      -> 0     0 "ab" used twice    1 "cde" used once
//! give back 1             0 "ab" used twice    1 free
//! use "f"       -> 1     0 "ab" used twice    1 "f" used once
//! ```
//!
//! Inside, each text has an allocation of its own, so that its memory is given back with its last use. A hashed index leads
//! from a text back to its number: an array of links chains the numbers of a bucket, one link for each number, and another has
//! the head of each chain. The free numbers are a bucket of their own, the first one, so that each number is in one chain
//! only, and giving a text back moves its number from one chain to another. That asks for no memory.
//!
//! There are as many buckets for texts as places for numbers, or more; they are doubled once all places are in use. Numbers
//! from a quarter of the buckets on are the upper ones, and it is counted how many texts have one. If none has, places and
//! buckets become fewer, with room for as many numbers again. So all rebuilding together costs time in proportion to the texts
//! that were used.
#![tactic(auto)]

mod entry;
mod laws;
mod links;
mod refusal;
mod room;
mod store;
mod texts;

pub use djq_arena::SLOTS;
pub use entry::MOST_USES;
pub use laws::finding;
pub use refusal::TextsRefusal;
pub use texts::Texts;
