//! Cursors in slots, each with its progress or with what made it stale.
//!
//! A [`Cursors`] gives each cursor a number, its slot, which doesn't change while the cursor is there. What a
//! cursor lists is its owner's: cursors of one query and of a union are in the same slots.
//!
//! ```text
//! open      slot 0    open
//! open      slot 1    open, open
//! close 0             -, open
//! outdate             -, stale
//! open      slot 0    open, stale
//! ```
//!
//! What surprises: a cursor that is stale retains its slot, and the first change that made it so, until
//! it is closed. No call continues its listing.
#![tactic(auto)]

mod cursors;
mod progress;

pub use cursors::Cursors;
pub use progress::Progress;
