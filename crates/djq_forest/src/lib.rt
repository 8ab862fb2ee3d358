//! The entries of a join tree's nodes, tied to each other by links: what a change of a row does to the tables of a query
//! is found by following ties, with one look-up for each new entry.
//!
//! This crate is being built. It has the data of a forest with what holds of it (`specs/`, in the order of
//! `specs/Lib.antt`), and bottom-up the parts that it is made of; the program doesn't use it yet. It is to replace
//! djq_index, djq_reduct and djq_propagate.
//!
//! A *knot* is a leaf of the tree, or a view. A leaf's entries are the tuples that the rows of its relation give it. A
//! trim is a view that its child's knot *feeds*. A meet makes no knot of its own: if the labels of its guard and its
//! side differ, its guard's knot has the side's as a *side*, and if they are equal, one view is both. An
//! *edge* leads from a big knot to a small one that has a part of its variables. Each entry of the big one is *tied*
//! to the one entry of the small one that has its projection, as long as it is there, whether it lives or not.
//!
//! ```text
//! q(x,y) <- r(x,y), s(y)      knots                        entries, each with the one that it is tied to
//!
//! n 0 leaf r x,y out          r     feeds y by column 1    1,7 -> 7    2,7 -> 7    3,8 -> 8
//! n 1 leaf s y out            s     feeds y by column 0    7 -> 7      9 -> 9
//! n 2 trim 0 y out            y     feeds the root         7 -> ()     8 -> ()     9 -> ()
//! n 3 meet 1 2 y out
//! n 4 trim 3 - out            root                         ()
//!
//! The view y is both n 2 and n 3. What the edges list for its entries, and for the root's:
//!
//!                             from r                       7: 2,7  1,7     8: 3,8     9: none
//!                             from s                       7: 7            8: none    9: 9
//!                             from y                       (): 7
//! ```
//!
//! An entry *lives* if each edge that feeds its knot has a living entry tied to it, and each side that it is tied to
//! lives. Above, 7 of y lives, since r and s feed it; 8 and 9 don't. So a view has entries for dead ends, too: which
//! entries there are depends on the leaves' tuples alone, and an entry becomes live by changes of numbers and links. That
//! looks nothing up, needs no memory and can't fail.
//!
//! Each edge lists for each entry of its small knot the entries of its big one that are tied to it; if it feeds,
//! those of them that live. So a list's length is the number of supports of a trim's tuple.
//!
//! What holds of a forest between two changes is `IsForest` (`specs/Invariants.antt`), and what it represents is
//! `reducts_of` (`specs/Fold.antt`): the table of each node, with as many supports as the node's reduct has.
//!
//! In the midst of a change some of what lives isn't known everywhere yet: `IsToldSoFar` (`specs/Telling.antt`) defines
//! lists and counts by the steps that were propagated. Each step preserves it, done or undone; after the last one the
//! forest is whole again. What is still to be propagated is *pending* (`specs/Pending.antt`): a step removes from that
//! what it propagates, and adds what is to be propagated of an entry that becomes live by it, or ceases to be. An entry
//! has *risen* once nothing that hangs on it is pending any more (`specs/Rising.antt`).
//!
//! Inside, entries lie in slots ([`Slots`]): the cells of all one after the other, and a note of twelve bytes for each. A
//! [`Tie`] has twelve bytes, too: the slot that it leads to, and its neighbours in that one's list. A leaf's entries lie
//! in their rows' slots; a view's are found by their tuples ([`Index`]), for four bytes a slot and as many a bucket, and
//! one array links both the slots of a bucket and the free ones. Links are four bytes, slots of arrays, no pointers. Room
//! for an entry is reserved before it is inserted ([`Forest::reserve`]), so that inserting it can't fail.
#![tactic(auto)]

mod climb;
mod edge;
mod forest;
mod index;
mod knot;
mod room;
mod slots;
mod steps;
mod ties;

ghost use Rattle.djq_forest.specs.Fold.{ForestsAreReducts};
ghost use Rattle.djq_forest.specs.Pending.{PendingMoves};
ghost use Rattle.djq_forest.specs.Rising.{RisingSteps};
ghost use Rattle.djq_forest.specs.Room.{RoomKeeps};
ghost use Rattle.djq_forest.specs.Steps.{StepsCanBeTaken};
ghost use Rattle.djq_forest.specs.Telling.{TellingKeeps};
ghost use Rattle.djq_forest.specs.Worked.{JoinIsWorked, CoverIsWorked};

pub use edge::Edge;
pub use forest::{Forest, Needs};
pub use index::Index;
pub use knot::Knot;
pub use slots::{Note, OUT, Slots};
pub use ties::{Tie, Ties};

/// The forest above is one, over its tree, and represents the join's reducts; and so is that of the same rows if s is
/// a side of r. It does nothing.
pub fn examples_are_worked()
    ensures join { JoinIsWorked }
    ensures cover { CoverIsWorked }
{}

/// What a forest over a tree represents are the tree's reducts. It does nothing.
pub fn forests_are_reducts()
    ensures { ForestsAreReducts }
{}

/// A forest is whole if all steps of a change were propagated; one step more, or one that is undone, leaves a state in
/// which some were. It does nothing.
pub fn telling_keeps()
    ensures { TellingKeeps }
{}

/// What is to be propagated next meets the conditions of the step that does it. It does nothing.
pub fn steps_can_be_taken()
    ensures { StepsCanBeTaken }
{}

/// While entries become live, or cease to be, what a step propagates is pending no more, and what became live by it is,
/// or ceased to be; without anything pending the forest is whole. It does nothing.
pub fn pending_moves()
    ensures { PendingMoves }
{}

/// Steps by which all is propagated that hangs on an entry that became live, while what is pending besides stays so. It
/// does nothing.
pub fn rising_steps()
    ensures { RisingSteps }
{}

/// A forest with more room for entries is one over the same tree, and represents the same reducts. It does nothing.
pub fn room_keeps()
    ensures { RoomKeeps }
{}
