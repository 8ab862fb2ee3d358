//! The union of some registered queries: its members, its cursors, and what they give.
//!
//! A [`LiveUnion`] stores a name, the places of its members, and cursors in slots. It has no tables
//! of its own, and no queries: each call that needs them is lent all queries in their places, among
//! them the members. A cursor lists by djq_union what the members list by djq_live_query.
//!
//! ```text
//! places    0 a(x,y)   1 -   2 b(u,v)   3 c(x)
//! union u   members 0, 2
//! a read    gives an answer of a or b, as a tuple of a's tree
//! ```
//!
//! What surprises: members have numbers of their own for their variables, so a cell means nothing
//! between them but in the order of the head. That is the coin: cells in the head's order of two
//! members are equal if and only if they represent equal values, since one dictionary gave all texts
//! their numbers and the heads have the same types. What is given is then turned into the order of
//! the first member's tree, so that whoever lends an answer of a query lends one of a union.
//!
//! It is no snapshot: cursors continue only while no member's tables change. Whoever changes them
//! calls [`LiveUnion::outdate`]; what leaves them as they are leaves the cursors unchanged
//! ([`unions_stay`]).
//!
//! To read first: `specs/United.antt`, what a union is over queries in places, and how far its
//! cursors are; then `specs/Reading.antt`, what reads give.
#![tactic(auto)]

mod alike;
mod laws;
mod reads;
mod union;

pub use alike::heads_differ;
pub use laws::{members_stay, stale_stand, unions_stay};
pub use union::LiveUnion;
