//! Laws of groups that are inserted and deleted. Each function is empty: its contract is the law.
ghost use Rattle.djq_queries.specs.Changing.{ChangedLogsSettle};
ghost use Rattle.djq_queries.specs.Netting.{GroupsOnlyCome, GroupsOnlyGo, GroupsSettle};

use djq_answer_laws::net_deltas;

/// An insertion of groups removes no row from a relation; a deletion adds none.
pub fn rows_follow_groups()
    ensures come { GroupsOnlyCome }
    ensures go { GroupsOnlyGo }
{}

/// If groups are inserted and others then deleted, the added answers and the removed ones, without the
/// opposites of one another, are the delta of the whole change.
pub fn groups_settle()
    ensures { GroupsSettle }
{
    net_deltas();
}

/// So what a log that isn't lost has of a change, without the opposites of one another, is the delta of its
/// query.
pub fn changed_logs_settle()
    ensures { ChangedLogsSettle }
{
    groups_settle();
}
