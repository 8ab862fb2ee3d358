//! The catalog: relations with their rows, and the texts that are known.
//!
//! A [`Catalog`] stores each relation's rows in an arena of `djq_arena`, as cells: of an integer its
//! 64 bits, of a text its number in the dictionary. Contracts see neither slots nor numbers, but the
//! relations with lists of values as their rows, each with its copies, and the list of known texts:
//! what the definitions of a query's answers speak of.
//!
//! It evaluates no query, and it checks no more of a row than [`Catalog::suits`] does. It has no
//! order of rows but that of insertion, and no relation is ever dropped.
//!
//! What surprises: a row is added and deleted by its cells, which [`Catalog::intern_cells`] gives and
//! [`Catalog::cells`] finds. So a row's texts become known before it is added, and stay known if it
//! isn't. The cells of a row stay the same however many texts become known later ([`cells_stay`]),
//! and different rows have different cells ([`cells_differ`]): who holds cells holds the row.
//!
//! ```text
//! r int text               texts       0 "a"   1 "b"
//!   1 "a"   cells 1 0      names       0 "r"
//!   2 "b"   cells 2 1      relations   0 r, its rows (1, 0) and (2, 1)
//! ```
//!
//! Inside, the relations are a list in the order in which they were made. A second dictionary has
//! their names, so that a name's number is the relation's place, and no name is looked for one by
//! one. The copies of each row are an array by its slot: a further copy needs no memory.
#![tactic(auto)]

mod catalog;
mod kept;
mod laws;
mod refusal;
mod relation_id;
mod rows;
mod walk;

pub use catalog::Catalog;
pub use laws::{cells_differ, cells_stay, rows_by_name_or_place, texts_stay};
pub use refusal::RowsRefusal;
pub use relation_id::RelationId;
pub use walk::Walk;
