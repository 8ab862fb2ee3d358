//! What lines do to answers.
ghost use Rattle.djq_transaction.specs.Leading.{LinesLead, LinesGroup, HeadingsStay, ChangedIsEither, LinesSpareOthers};
ghost use Rattle.djq_transaction.specs.Leading.{CatalogsHaveCopies, LeftRows, LeftIsAfter, AnswersLeft};
ghost use Rattle.djq_transaction.specs.Suiting.{LinesSuit};
ghost use Rattle.djq_transaction.specs.Settled.{LinesInsert, RowsInserted, LinesRemove, RowsRemoved, LinesDelta};

use djq_answer_laws::{answers_follow_rows, net_deltas};

/// The new rows of a transaction lead from the relations before to those between, which only have more rows; the
/// others lead from there to the relations after, which only have fewer. Which rows these are is stated by relation,
/// as [`group_rows`](crate::group_rows) lists them. So the answers that the first step adds and those that the second
/// removes, without those in both, are the delta of the transaction.
pub fn lines_settle()
    ensures insert { LinesInsert }
    ensures inserted { RowsInserted }
    ensures remove { LinesRemove }
    ensures removed { RowsRemoved }
    ensures delta { LinesDelta }
{
    net_deltas();
}

/// Lines that a store holds, none of which it refuses for its relation or its types, suit the store's relations. So
/// they can be judged.
pub fn lines_suit()
    ensures { LinesSuit }
{}

/// By the groups of the rows that lines insert, as [`group_rows`](crate::group_rows) lists them, a catalog leads to
/// the one with the relations between, and by those of the rows that they delete from there to one without these
/// rows. So the queries that read one of their relations can follow. A relation of which no row is inserted or deleted
/// has no group, and stays as it was.
pub fn lines_lead()
    ensures lead { LinesLead }
    ensures group { LinesGroup }
    ensures stay { HeadingsStay }
    ensures changed { ChangedIsEither }
    ensures spare { LinesSpareOthers }
    ensures copies { CatalogsHaveCopies }
{}

/// That catalog has the rows of the relations after, but rows that stay may have other copies. So whoever reads no
/// copies may use the one for the other.
pub fn lines_leave()
    ensures rows { LeftRows }
    ensures same { LeftIsAfter }
    ensures answers { AnswersLeft }
{
    answers_follow_rows();
}
