//! The data of djq: values, rows, relations and conjunctive queries, as plain types, and what an
//! answer is.
//!
//! The types have no logic. `specs/` defines their meaning: by which rows an assignment satisfies
//! an atom, which tuples are answers of a query, and what a listing of them is. Nothing here
//! depends on a server, a session or a way to compute answers.
//!
//! ```text
//! r int int   (1,2) (3,4)       s int   (2)       q(x) <- r(x,y), s(y)
//!
//! x is 1, y is 2     satisfies r(x,y) by the row (1,2), and s(y) by the row (2)
//! (1)                so it is an answer: what this assignment gives on the head
//! [(1)]              a listing: each answer once, and nothing else
//! ```
//!
//! What surprises: an answer is one, however many assignments give it. Each hole may have any
//! value, independently of other holes. An assignment gives a value to every name, also to those
//! that no atom has. So a head's variable that is in no atom would have any value.
//!
//! Every list is a [`Sequence`], which contracts see as a list. On names, texts, values and tuples
//! `==` is `bytes_eq`, `value_eq` and `tuple_eq` of `specs/Data.antt`, and `specs/Equality.antt`
//! states that these decide equality.
//!
//! Inside, a [`Name`] is stored inline, so that a copy allocates nothing, and a [`Text`] is a list
//! of bytes. A [`ValueRef`] is a value whose text is borrowed, and an [`Answered`] is a tuple whose
//! values are read in place. To read first: `specs/Answer.antt`.
#![tactic(auto)]

pub use answered::Answered;
pub use memory::NoMem;
pub use name::{NAME_BYTES, Name};
pub use query::{Atom, Atoms, Comparison, Comparisons, Names, Operator, Query, Term, Terms};
pub use relation::{ColumnType, CountedRow, Relation, Types};
pub use sequence::Sequence;
pub use value::{Row, Rows, TEXT_BYTES, Text, Value};
pub use value_ref::ValueRef;

mod answered;
mod memory;
mod name;
mod query;
mod relation;
mod sequence;
mod value;
mod value_ref;
