//! Counters that contracts read and that cost nothing at run time.
//!
//! A [`Tally`] is seen as a number. Each tick adds one to it, so a clause such as
//! `tally.new ≤ tally.old + 5` bounds how many ticks a call makes. It doesn't measure time, and
//! nothing can read it while the program runs: it has no bytes, and a tick does nothing.
//!
//! What surprises: a tally is made only together with two others, by [`Steps::new`], which requires
//! the runtime. A call that is given steps is given no runtime, so it can't count on tallies of its
//! own in place of those that it was given.
//!
//! `main` and a test pick the ledgers at their call of a function that is generic in them, as
//! `counted` of djq_examples_theory does:
//!
//! ```text
//! fn counted<L: Ledgers>(rt: &HostRuntime, blanks: Blanks) -> u64
//!     requires listing { blanks.listing.name ≡ L.listing }
//!     requires update { blanks.update.name ≡ L.update }
//!     requires rows { blanks.rows.name ≡ L.rows }
//! { let mut steps = Steps::<L>::new(rt, blanks); .. }
//!
//! fn main(rt: HostRuntime) { counted::<Brand>(&rt, Blanks::new(&rt)) }
//! ```
//!
//! with this pick in `proofs/main/Invariants.antt` (for a test that asserts, `g` precedes `a`):
//!
//! ```text
//! abbrev pub ghosts-counted : goal.ghosts-counted
//! ghosts-counted a = record {
//!   listing = a.blanks.listing.name;
//!   update = a.blanks.update.name;
//!   rows = a.blanks.rows.name;
//! }
//! ```
//!
//! Inside, a tally is the book of a ledger (`std::sync::ledger`) with its one share.
#![tactic(auto)]

mod steps;
mod tally;

pub use steps::{Blanks, Ledgers, Listing, Rows, Steps, Update};
pub use tally::Tally;
