ghost use Rattle.std.specs.Prelude.{◌≡◌, ◌↔◌, ◌<◌, ◌+◌, ◌≤◌, ◌==◌, [], not, Contains, IsTrue, IfSome, OnOk};
ghost use Rattle.djq_io.specs.Sessions.{faults_of};
ghost use Rattle.djq_io.specs.SessionsInside.{after_end, after_fault};
ghost use Rattle.djq_io.specs.Faults.{Counted};
ghost use Rattle.djq_io.specs.HubFaults.{SameCounts, SameCountsBut};
ghost use Rattle.djq_io.specs.Hub.{no_ids, IsNewId, IsRunning, with_opened, EndsInput, without};

use std::alloc::{AllocError, Global};
use std::marker::Model;

/// An open session.
#[derive(Clone, Copy, Debug, Drop)]
struct Session {
    id: u64,
    ended: bool,
    faults: u64,
}

impl Session {
    /// The session after the input of that with this id has ended.
    fn after_end(self, id: u64) -> Self
        ensures { result ≡ after_end id self }
    {
        Session {
            id: self.id,
            ended: self.ended || self.id == id,
            faults: self.faults,
        }
    }

    /// The session after a fault of that with this id.
    fn after_fault(self, id: u64) -> Self
        ensures { result ≡ after_fault id self }
    {
        if self.id == id {
            Session {
                id,
                ended: self.ended,
                faults: self.faults.saturating_add(1),
            }
        } else {
            self
        }
    }
}

/// The sessions of a hub, seen as their ids, and the room for further ones that it has allocated ahead.
#[derive(Debug, Drop)]
pub struct Sessions {
    newest: Option<u64>,
    places: Vec<Session>,
}

impl Model for Sessions {
    ghost use Rattle.std.specs.Prelude.{◌-◌, ◌≤◌, All, vec_len, vec_capacity};
    ghost use Rattle.djq_io.specs.Sessions.{Places};
    ghost use Rattle.djq_io.specs.SessionsInside.{open_ids_in, ended_in, counts_in};

    ghost Value = { Places };

    ghost view = { λ s. record {
      ids = record {
        newest = s.newest;
        open_ids = open_ids_in s.places.items;
        ended_ids = ended_in s.places.items;
      };
      room = vec_capacity s.places - vec_len s.places;
      counts = counts_in s.places.items;
    } };

    ghost invariant = { λ s. All (λ x. x.faults ≤ 18446744073709551615) s.places.items };
}

impl Sessions {
    /// No session was opened yet, and there is no room for one.
    pub fn new(alloc: Global) -> Self
        ensures ids { result.ids ≡ no_ids }
        ensures room { result.room ≡ 0 }
        ensures counts { result.counts ≡ [] }
    {
        Sessions {
            newest: None,
            places: Vec::new(alloc),
        }
    }

    /// Allocates room for so many more sessions than are open.
    pub fn reserve(&mut self, more: usize) -> Result<(), AllocError>
        ensures ids { self.new.ids ≡ self.old.ids }
        ensures counts { self.new.counts ≡ self.old.counts }
        ensures room { self.old.room ≤ self.new.room }
        ensures ok { OnOk result (more ≤ self.new.room) }
    {
        self.places.reserve(more)
    }

    /// Whether there is room for one more session.
    pub fn has_room(&self) -> bool
        ensures { IsTrue result ↔ (0 < self.now.room) }
    {
        self.places.len() < self.places.capacity()
    }

    /// The least id above all before, or `None` if there is none.
    pub fn next_id(&self) -> Option<u64>
        ensures { IfSome result (λ id. IsNewId self.now.ids id) }
    {
        match self.newest {
            None => Some(1),
            Some(newest) => newest.checked_add(1),
        }
    }

    /// Whether a session with this id would be newer than all before.
    pub fn is_new(&self, id: u64) -> bool
        ensures { IsTrue result ↔ IsNewId self.now.ids id }
    {
        self.newest.is_none_or(|newest| newest < id)
    }

    /// Whether this session is open and its input hasn't ended.
    pub fn is_running(&self, id: u64) -> bool
        ensures { IsTrue result ↔ IsRunning self.now.ids id }
    {
        let is_open = self.places.iter().any(|x| x.id == id);
        let has_ended = self.places.iter().any(|x| x.id == id && x.ended);
        is_open & !has_ended
    }

    /// Opens a session.
    pub fn open(&mut self, id: u64)
        requires new { IsNewId self.old.ids id }
        requires room { 0 < self.old.room }
        ensures ids { self.new.ids ≡ with_opened self.old.ids id }
        ensures faults { SameCounts self.old.ids.open_ids (faults_of self.old.counts) (faults_of self.new.counts) }
        ensures room { self.old.room ≤ self.new.room + 1 }
    {
        let _ = self.places.push(Session {
            id,
            ended: false,
            faults: 0,
        });
        self.newest = Some(id);
    }

    /// Ends the input of a session.
    pub fn end(&mut self, id: u64)
        requires { Contains self.old.ids.open_ids id }
        ensures ids { EndsInput id self.old.ids self.new.ids }
        ensures faults { self.new.counts ≡ self.old.counts }
        ensures room { self.new.room ≡ self.old.room }
    {
        for x in self.places.iter_mut() {
            *x = x.after_end(id);
        }
    }

    /// Counts a fault of a session.
    pub fn count_fault(&mut self, id: u64)
        requires { Contains self.old.ids.open_ids id }
        ensures ids { self.new.ids ≡ self.old.ids }
        ensures room { self.new.room ≡ self.old.room }
        ensures counted { Counted (faults_of self.old.counts id) (faults_of self.new.counts id) }
        ensures others { SameCountsBut id self.old.ids.open_ids (faults_of self.old.counts)
            (faults_of self.new.counts) }
    {
        for x in self.places.iter_mut() {
            *x = x.after_fault(id);
        }
    }

    /// Closes a session, whose place is free again.
    pub fn close(&mut self, id: u64)
        requires { Contains self.old.ids.open_ids id }
        ensures ids { self.new.ids ≡ without self.old.ids id }
        ensures faults { SameCounts self.new.ids.open_ids (faults_of self.old.counts) (faults_of self.new.counts) }
        ensures room { self.old.room < self.new.room }
    {
        self.places.retain(|x| x.id != id);
    }
}
