//! One registered query, maintained while the rows below it change.
//!
//! [`LiveQuery::build`] fills the tables of a planned query's tree from a catalog's rows;
//! [`LiveQuery::add`], [`LiveQuery::add_many`] and [`LiveQuery::delete`] maintain them as rows are
//! inserted and deleted, and log how the answers changed if that is wanted; cursors list the answers,
//! one a call, each at a bounded cost.
//!
//! ```text
//! q(z,x) <- r(x,_), s(x,z,3)     x is 0, _ is 1, z is 2; the head is 2, 0
//! leaf 0 over 0,1                (5,7): r has the row 5 7
//! leaf 1 over 0,2                (5,9): s has the row 5 9 3
//! an answer of the tree          (5,9), over 0,2 in rising order
//! shows                          9 5, in the head's order
//! ```
//!
//! It stores no rows and no texts: it is maintained *over* a catalog, which the engine changes first.
//! What ties the two is a predicate of the contracts, `IsLive` (`specs/Live.antt`), and the contract of
//! each call names the catalog over which the query is live afterwards. A change makes no cursor stale
//! by itself: whoever reads one next calls [`LiveQuery::outdate`] before.
//!
//! What surprises: no contract needs a word on how a leaf's tuples were made. A leaf holds exactly the
//! tuples that put into the atom give a row of the relation and pass the comparisons of the atom's
//! variables, so constants, comparisons and repeated variables need no case, and neither do relations
//! that are read twice.
//!
//! Inside, it is the algorithm of Idris, Ugarte and Vansummeren (*The dynamic Yannakakis algorithm*,
//! SIGMOD 2017) between a catalog and a list of answers: the query's tree is djq_binder's, its leaves
//! are djq_leaves', and its reducts and cursors djq_reduct's and djq_enumeration's. The functions with
//! empty bodies are laws between tables and answers. An answer is made by an assignment of cells to
//! numbers. From a node of `out` down to the leaves it is extended trim by trim, by a tuple of the
//! trim's child: what the trim drops is in no label above it, so nothing that was settled changes. From
//! values to cells each hole has the cell of the row at its column. What is listed leaf by leaf as a row
//! is inserted or deleted is the change of the answers: they only grow, or only shrink.
#![tactic(auto)]

pub use changes::{leaves_after_insert, over_loses};
pub use laws::{
    answers_are_listed, answers_are_showable, answers_are_shown, answers_differ, answers_stand,
    flat_meets_are_equal, heads_are_bound, leaves_are_small, numbered_is_asked, showable_stays,
};
pub use listing::Next;
pub use live::LiveQuery;
pub use member::{
    QueriesAt, answers_are_had, answers_have_cells, cells_in_head_stand, cells_in_tree_stand,
    cells_tell_values, had_cells_stand, head_types_are, queries_are_kept, showable_cells_stand,
};
pub use staying::{came_all_passes, live_stays, other_queries_stay, went_passes};

mod build;
mod changes;
mod headed;
mod laws;
mod listing;
mod live;
mod lookup;
mod member;
mod reads;
mod staying;
mod update;
