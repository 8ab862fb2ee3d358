//! The reads of one cursor of a query.
ghost use Rattle.std.specs.Prelude.{◌+◌, ◌≤◌, length};
ghost use Rattle.djq_store_spec.specs.Registering.{most_steps};
ghost use Rattle.djq_live_query.specs.Cursors.{IsOpen};
ghost use Rattle.djq_live_query.specs.Reading.{next_steps};
ghost use Rattle.djq_live_query.specs.Advancing.{ProgressFits, CursorReads, CursorLooks};

use crate::listing::Next;
use djq_counters::Tally;
use djq_cursors::Progress;
use djq_enumeration::Cursor;
use djq_reduct::{Answer, Reducts};
use std::sync::ledger::Ledger;

/// Reads a cursor: a further answer, the end, or what made it stale.
pub fn read<L: Ledger>(
    progress: &mut Progress<Cursor>,
    reducts: &Reducts,
    answer: &mut Answer,
    listing: &mut Tally<L>,
) -> Next
    requires { ProgressFits reducts.now progress.old }
    ensures reads { CursorReads reducts.now progress.old result answer.new progress.new }
    ensures counted { listing.new ≤ listing.old + next_steps result (length reducts.now.tree.head) }
{
    match progress {
        Progress::Open { cursor, ended } => {
            *ended = !cursor.advance(reducts, answer, listing);
            if *ended { Next::End } else { Next::Given }
        }
        Progress::Stale { relation, seq } => Next::Stale {
            relation: *relation,
            seq: *seq,
        },
    }
}

/// Whether a cursor that isn't stale has an answer left.
pub fn has_more<L: Ledger>(
    progress: &mut Progress<Cursor>,
    reducts: &Reducts,
    listing: &mut Tally<L>,
) -> bool
    requires fits { ProgressFits reducts.now progress.old }
    requires fresh { IsOpen progress.old }
    ensures looks { CursorLooks reducts.now progress.old result progress.new }
    ensures counted { listing.new ≤ listing.old + most_steps (length reducts.now.tree.head) }
{
    match progress {
        Progress::Open { cursor, ended } => {
            let left = cursor.is_left(reducts, listing);
            *ended = !left;
            left
        }
        Progress::Stale { .. } => false,
    }
}
