//! The reads of one cursor of a union.
ghost use Rattle.std.specs.Prelude.{◌+◌, ◌≤◌};
ghost use Rattle.djq_database.specs.Catalog.{Catalog as CatalogModel};
ghost use Rattle.djq_live_query.specs.Member.{queries_at};
ghost use Rattle.djq_united.specs.Slots.{IsOpen};
ghost use Rattle.djq_united.specs.United.{AreMembers, AreKept, CursorFitsMembers};
ghost use Rattle.djq_united.specs.Advancing.{UnionReads, UnionLooks, call_steps, most_of};

use djq_counters::Tally;
use djq_cursors::Progress;
use djq_live_query::{LiveQuery, Next, QueriesAt};
use djq_reduct::{Answer, Cells};
use djq_union::{Members, UnionCursor};
use std::sync::ledger::Ledger;

/// Reads a cursor over the queries in these places: a further answer, as a tuple of the first one's
/// tree, the end, or what made it stale.
pub fn read<L: Ledger>(
    progress: &mut Progress<UnionCursor<LiveQuery>>,
    queries: &[Option<LiveQuery>],
    places: &[usize],
    answer: &mut Answer,
    listing: &mut Tally<L>,
) -> Next
    requires members { AreMembers queries.now places.now }
    requires kept { (c : CatalogModel) × AreKept c queries.now }
    requires fits { CursorFitsMembers (queries_at queries.now places.now) progress.old }
    ensures reads { UnionReads (queries_at queries.now places.now) progress.old result answer.new
        progress.new }
    ensures counted { listing.new ≤ listing.old
        + call_steps result (queries_at queries.now places.now) }
{
    match progress {
        Progress::Open { cursor, ended } => {
            let members = QueriesAt { queries, places };
            let mut cells = Cells::new(0);
            *ended = !cursor.advance(&members, &mut cells, listing);
            if *ended {
                return Next::End;
            }
            members.member(0).put_in_tree(&cells, answer);
            Next::Given
        }
        Progress::Stale { relation, seq } => Next::Stale {
            relation: *relation,
            seq: *seq,
        },
    }
}

/// Whether a cursor that isn't stale has an answer left.
pub fn has_more<L: Ledger>(
    progress: &mut Progress<UnionCursor<LiveQuery>>,
    queries: &[Option<LiveQuery>],
    places: &[usize],
    listing: &mut Tally<L>,
) -> bool
    requires members { AreMembers queries.now places.now }
    requires kept { (c : CatalogModel) × AreKept c queries.now }
    requires fits { CursorFitsMembers (queries_at queries.now places.now) progress.old }
    requires fresh { IsOpen progress.old }
    ensures looks { UnionLooks (queries_at queries.now places.now) progress.old result progress.new }
    ensures counted { listing.new ≤ listing.old + most_of (queries_at queries.now places.now) }
{
    match progress {
        Progress::Open { cursor, ended } => {
            let left = cursor.is_left(&QueriesAt { queries, places }, listing);
            *ended = !left;
            left
        }
        Progress::Stale { .. } => false,
    }
}
