//! Updates of reducts: a tuple is inserted into a leaf or deleted from it, and each table is its
//! node's reduct again (Idris, Ugarte, Vansummeren, *The dynamic Yannakakis algorithm*, SIGMOD
//! 2017).
//!
//! An update has two calls. [`insert_leaf`] inserts a tuple into a leaf's table and what follows
//! from it into the tables above, and [`finish_insertion`] ends it, or [`undo_insertion`] undoes it.
//! [`mark_removal`] marks a tuple and what depends on it, and [`finish_removal`] removes them. In
//! between, the marks on the leaf's path show what the update changes: up to the lowest node in
//! `out` the marked tuples are those that would not be there without the leaf's marked one, above it
//! those that agree with a marked tuple of the path's next lower node. From these a query's new or
//! lost answers are listed.
//!
//! ```text
//! q(x,y) <- r(x,y), s(y)     before                insert_leaf(1, (7))
//! 4   trim of 3              ()                    () by 2, marked
//! 3   meet of 2 with 1       5                     5    7 marked
//! 2   trim of 0, on y        5 by 2    7           as before
//! 1   leaf s(y)              5    9                5    9    7 marked
//! 0   leaf r(x,y)            1,5    2,7    3,5     as before: 2,7 is an answer now
//! ```
//!
//! If nobody wants to know what an update changes, [`add_leaf`] and [`drop_leaf`] do it at once, by
//! the same steps, and mark nothing.
//!
//! Many tuples of one leaf may be inserted in one update: by [`insert_leaf_many`], and it ends as
//! that of one tuple does; [`add_leaf_many`] and [`drop_leaf_many`] mark nothing. To delete many,
//! [`mark_tuple`] marks them one by one, [`mark_above`] then marks what depends on them all, and
//! [`finish_removal`] removes them.
//!
//! It lists no answer, and it knows no relation: a self-join's row is inserted into its leaves one
//! after another.
//!
//! What surprises: only the calls that insert tuples ask for memory. If they get none, all tables
//! hold what they held, though the order in groups may differ. A removal does nothing to the tables
//! until it is finished. What an update counts is bounded by the tuples of the leaves
//! ([`counts_add_up`]), for one tuple or many.
//!
//! Inside, one tuple is propagated up the path at a time, depth first. A tuple that is new below a
//! trim raises a support or is new there, too; one that is new in a guard is new in its meet if the
//! side has its projection; one that is new in a side adds the guard's group. A deletion is
//! propagated the same way, without memory, so that it also serves to undo. A table's equation with
//! its children is a sum over its tuples, and no call shows more than that each sum gains or loses
//! one.
#![tactic(auto)]

mod batch;
mod insertion;
mod many;
mod path;
mod removal;
mod tables;
mod touch;
mod update;

pub use batch::{add_leaf_many, drop_leaf_many, insert_leaf_many};
pub use update::{
    add_leaf, counts_add_up, drop_leaf, finish_insertion, finish_removal, insert_leaf, mark_above,
    mark_removal, mark_tuple, undo_insertion,
};
