//! What holds of unions as the queries in their places change, stated without code.
ghost use Rattle.djq_united.specs.Staying.{MembersStay, UnionsStay, StaleStand};

/// Queries that are the same can be a union's members as they could, and are what is registered.
pub fn members_stay()
    ensures { MembersStay }
{}

/// If the tables of a union's members are the same, its cursors are unchanged.
pub fn unions_stay()
    ensures { UnionsStay }
{}

/// A cursor that a change makes stale is in the state that the machine defines.
pub fn stale_stand()
    ensures { StaleStand }
{}
