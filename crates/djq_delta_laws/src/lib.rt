//! That the settled lines of a query's delta are the net delta of its answers.
//!
//! The definitions of changes speak of tuples, and a delta has lines of cells. The contract of each function here is a
//! law of any reading of cells as tuples that distinguishes the answers at hand.
//!
//! ```text
//! lines        + (4, 7)   + (4, 9)   - (4, 7)         settled    + (4, 9)
//! as changes   + ("a", 7) + ("a", 9) - ("a", 7)       settled    + ("a", 9)
//! ```
//!
//! It has no code that runs. What surprises: different cells may be read as one tuple, as long as no two of the lines at
//! hand have them.
//!
//! Inside, opposite lines are opposite changes, so the four facts of settled lines are those of changes.
#![tactic(auto)]

ghost use Rattle.djq_delta_laws.specs.Changes.{SettledLinesCancelOut, SettledLinesAreDelta};

use djq_answer_laws::net_deltas;

/// The law that settled lines, read as changes, are what stays of the lines' changes once opposites cancel out.
pub fn settled_lines_cancel_out()
    ensures { SettledLinesCancelOut }
{}

/// The law that lines of answers added as rows were inserted, and then of answers removed as rows were, are the delta of
/// the whole change once they are settled.
pub fn settled_lines_are_the_delta()
    ensures { SettledLinesAreDelta }
{
    net_deltas();
}
