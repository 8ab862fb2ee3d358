//! Tables of different tuples of one width, in groups by the cells of a key.
//!
//! A [`Table`] is what query evaluation stores of each relation and each intermediate result: it finds a
//! tuple, and the first or last tuple of a group, in expected constant time whatever the sizes of groups,
//! and moves from a tuple to its neighbours in the group. Each tuple has a number of supports, and a mark
//! until the marks are cleared.
//!
//! It is no ordered index and no map: groups have no order among themselves, and a table knows no values.
//! Contracts see a table as the list of its entries; a group is a part of that list.
//!
//! What surprises: a [`Place`] names a tuple only until that tuple is removed, and its slot is then used
//! again. A touched tuple has the same place, though it moves to the end of its group. Counts are numbers
//! of contracts alone, in the [`Tally`](djq_counters::Tally) that is passed to each call.
//!
//! A tuple that has to be held is copied into [`Cells`], which are inline.
//!
//! ```text
//! width 2, key: column 1     groups            insert 4,7: after 2,7, marked
//! 1,5   2,7   3,5            5: 1,5  3,5       touch 1,5:  group 5 is 3,5  1,5, the last one marked
//!                            7: 2,7            clear_marks: the same lists, no marks
//! ```
//!
//! Inside, the tuples are the rows of a `djq_arena`, in the order in which they were inserted or touched.
//! A note beside each row has its supports, its mark and the head of its group. The rows of a group are
//! chained, and a second arena holds the cells of each group's key, beside which the ends of the chain are
//! stored. With an empty key the one group is the order of the rows itself, and with a key of all columns
//! each tuple is its own group: then there are neither chains nor heads. The marked tuples are the newest,
//! so the first of them is all that marks need.
#![tactic(auto)]

mod appending;
mod cells;
mod heads;
mod insertion;
mod kind;
mod marking;
mod place;
mod raw;
mod removing;
mod table;
mod walk;

pub use cells::{CELLS, Cells};
pub use place::Place;
pub use table::{SUPPORTS, TUPLES, Table};
