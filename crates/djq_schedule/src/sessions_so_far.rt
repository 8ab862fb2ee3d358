ghost use Rattle.std.specs.Prelude.{◌≡◌, [], None, not, nat_eq, filter, OnOk, IfOk};
ghost use Rattle.djq_schedule.specs.Schedule.{may_stand, newest_after, opened_after, ended_after, blocked_after};

use crate::line::Keyword;
use djq_io::IdList;
use std::alloc::{AllocError, Global};
use std::marker::Model;

/// What the lines so far define of sessions: the newest, which were opened, whose input ended, which
/// are blocked.
#[derive(Debug, Drop)]
pub(crate) struct SessionsSoFar {
    newest: Option<u64>,
    opened: Vec<u64>,
    ended: Vec<u64>,
    blocked: Vec<u64>,
}

impl Model for SessionsSoFar {
    ghost use Rattle.djq_schedule.specs.Schedule.{Stage};

    ghost Value = { Stage };

    ghost view = { λ s. record {
      newest = s.newest;
      opened = s.opened.items;
      ended =
          s.ended.items;
      blocked = s.blocked.items;
    } };
}

impl SessionsSoFar {
    /// No line yet.
    pub(crate) fn new(alloc: Global) -> Self
        ensures { result ≡ record { newest = None; opened = []; ended = []; blocked = [] } }
    {
        SessionsSoFar {
            newest: None,
            opened: Vec::new(alloc),
            ended: Vec::new(alloc),
            blocked: Vec::new(alloc),
        }
    }

    /// Whether a line of this keyword may name this session.
    pub(crate) fn may_stand(&self, keyword: Keyword, id: u64) -> bool
        ensures { result ≡ may_stand self.now keyword id }
    {
        match keyword {
            Keyword::Open => match self.newest {
                None => true,
                Some(newest) => newest < id,
            },
            Keyword::Free => self.opened.contains(&id),
            _ => self.opened.contains(&id) && !self.ended.contains(&id),
        }
    }

    /// Notes a line of this keyword.
    pub(crate) fn note(&mut self, keyword: Keyword, id: u64) -> Result<(), AllocError>
        ensures { OnOk result (self.new ≡ record {
          newest = newest_after keyword id self.old.newest;
          opened =
              opened_after keyword id self.old.opened;
          ended =
              ended_after keyword id self.old.ended;
          blocked =
              blocked_after keyword id self.old.blocked;
        }) }
    {
        match keyword {
            Keyword::Open => {
                self.opened.push(id)?;
                self.newest = Some(id);
            }
            Keyword::End => self.ended.push(id)?,
            Keyword::Again => self.blocked.push(id)?,
            Keyword::Free => remove(&mut self.blocked, id),
            Keyword::Say | Keyword::Part => {}
        }
        Ok(())
    }

    /// A copy of the list of blocked sessions.
    pub(crate) fn blocked(&self, alloc: Global) -> Result<IdList, AllocError>
        ensures { IfOk result (λ ids. ids ≡ self.now.blocked) }
    {
        Ok(IdList::of(Vec::from_slice(alloc, &self.blocked)?))
    }
}

/// Removes an id from a list.
fn remove(ids: &mut Vec<u64>, id: u64)
    ensures { ids.new.items ≡ filter (λ other. not (nat_eq other id)) ids.old.items }
{
    ids.retain(|other| *other != id);
}
