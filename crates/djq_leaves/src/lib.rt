//! The leaves of a query's tree, as rows are inserted and deleted.
//!
//! A leaf holds the tuples that put into its atom give a row of the atom's relation and pass the
//! comparisons of the atom's variables. [`bind_atoms`] makes the patterns by which rows give tuples,
//! and [`fill_leaves`] fills the leaves from a catalog. [`add_to_leaves`] inserts a row leaf after
//! leaf, [`delete_from_leaves`] deletes it, and [`add_all_to_leaves`] inserts many at once, which
//! [`delete_all_from_leaves`] deletes; each lists, leaf by leaf, which answers of the tree were added
//! or removed, if that is wanted.
//!
//! ```text
//! q(x,z) <- r(x,z,3), s(z,y)   x is 0, z is 1, y is 2
//! the row 5 7 3 of r           the tuple 5 7 of leaf 0, over 0,1
//! the row 5 7 4 of r           no tuple
//! ```
//!
//! It stores nothing, and it knows neither what an answer shows nor the cursors that are open: these
//! are djq_live_query's. Out of memory a row stays in the leaves that it was inserted into, which are
//! returned, and whoever called removes it from them again.
//!
//! What surprises: a relation that is read twice has two leaves, and a row is inserted into one after
//! the other, so that the second lists with the row in the first.
//!
//! Inside, the updates of a leaf and of the tables above it are djq_propagate's, and what they change
//! is listed by djq_enumeration's cursor over marked tuples.
#![tactic(auto)]

pub use batch::{add_all_to_leaves, give_all_from_leaves, tuples_of_all};
pub use bind::bind_atoms;
pub use changes::{
    added_came, copies_keep_rows, deleted_went, further_went, leaf_gains, leaf_is_empty,
    leaf_is_filled,
};
pub use fill::fill_leaves;
pub use removing::delete_all_from_leaves;
pub use stepping::{add_to_leaves, delete_from_leaves};

mod batch;
mod bind;
mod changes;
mod fill;
mod removing;
mod stepping;
