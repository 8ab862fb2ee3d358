//! How the answers of a union changed, computed from how its members' did.
//!
//! After a change, which may insert rows and delete others at once, the engine lists for each query the
//! answers that were added and removed. From the lists of a union's members [`tell_gains`] computes the
//! delta of the union, and lists it into a log: an answer is listed as added if some member's delta adds
//! it, none removes it, and no member in whose delta it doesn't occur has it now; as removed if it is the
//! other way round in the deltas.
//!
//! It stores nothing between two calls, and knows no session and no name. It promises no order of the
//! lines.
//!
//! What surprises: nothing is asked of the members as they were before the change. A member that has an
//! answer which isn't in its delta had it before, too, so the tables as they are suffice; and the rule
//! doesn't depend on the order of the members.
//!
//! ```text
//! member a                  member b              member c          the union
//! + 1  + 2  - 3  - 5        + 2  + 3  + 4         (not touched)
//! has 1 2                   has 2 3 4             has 4             + 1  + 2  - 5
//!
//! 3 was removed from a and added to b: the union had it, and has it. 4 isn't in c's delta, and c has it: so it
//! was there before. 5 was removed from a, and no member has it.
//! ```
//!
//! If rows are only inserted, or only deleted, all signs are the same.
//!
//! To read first: `HaveChanged` and `IsUnionDelta` of `specs/Gains.antt`, of which changes what is listed
//! is the delta; and `is_told` of `specs/Gathering.antt`, what is listed. That this is the delta is the law
//! `union_deltas` of djq_answer_laws.
//!
//! Inside, the different answers of the members' deltas are gathered in an arena, each with its marks: the
//! members in whose deltas it occurs, and its signs there (`gains`, `marks`): one insertion a line. Then
//! each whose signs agree is tested with the other members, as far as one that has it.
#![tactic(auto)]

mod gains;
mod gather;
mod marks;
mod telling;

pub use telling::tell_gains;
