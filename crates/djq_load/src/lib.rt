//! The loop of `djq gen`: a generated load through one session of a join machine.
//!
//! [`run_load`] opens session 1 and feeds it the lines of a load, one after another: each is run,
//! and its reply consumed, before the next is fed. Then the session opens a cursor over the load's
//! query and reads it until it gets the `end`, and no further. [`Totals`] has the number of
//! answers and the sum of their integers. Out of memory it ends at the line at which
//! memory was wanting. It is generic in the machine, so it is proved from the machine's contract
//! alone.
//!
//! ```text
//! rel r int int  ..  add s 3 1      the load: each line is run, and its reply consumed
//! open c q                          ok open
//! next c 1000                       = 0 1 4    = 2 1 4    end
//!                                   Totals { answers: 2, sum: 12 }
//! ```
//!
//! What surprises: the totals are read off the bytes of the replies, as a client would, and still
//! they are those of the query's answers over the present rows. That a reply lists answers
//! is what the machine promises, and that the text of a listing is read as the listing is a lemma
//! here (`proofs/Listings.antt`). The sum is modulo 2^64.
//!
//! What this crate is not: it buffers nothing, allocates nothing, and knows no row.
//!
//! Inside, `loading` is the loop, a function for each of its three parts. `reading` reads a
//! reply byte by byte: it stores its place in a line, how many answers were read and their
//! sum.
//!
//! # The generated lines
//!
//! A [`Load`] is made from a number of changes and a seed, and gives its lines one after another: a
//! session that fills two relations and reads their join now and then. Two loads of the same two
//! numbers are the same lines, on any machine and in any version, so that runs can be compared. The
//! numbers are drawn by a linear congruential generator with the constants of the C standard's
//! example. They are no good for anything but filling tables.
//!
//! ```text
//! rel r int int                          add s 1 1
//! rel s int int                          add r 1 0
//! query q(x,y,z) <- r(x,y), s(y,z)       add r 1 1
//! add r 0 1                              add r 0 1        (5 changes, seed 1)
//! ```
//!
//! A row may be added twice, or deleted if it is absent: a load requires nothing of the reply to a
//! line. It ends with its last change, or with the cursor's lines after it. It is four numbers
//! and what is due next: three draws make a change, and after each hundredth a cursor is opened, read
//! and closed. It allocates nothing: a line is written into a buffer of the caller's, with its line end.
#![tactic(auto)]

mod draw;
mod line;
mod load;
mod loading;
mod reading;

pub use line::LINE_BYTES;
pub use load::Load;
pub use loading::{Totals, run_load};
