ghost use Rattle.std.specs.Prelude.{◌≡◌, ◌==◌, []};
ghost use Rattle.std.specs.List.{list_any};

use std::alloc::Global;
use std::marker::Model;

/// Ids of sessions, seen as a list.
#[derive(Debug, Drop)]
pub struct IdList {
    ids: Vec<u64>,
}

impl Model for IdList {
    ghost use Rattle.std.specs.Prelude.{ℕ, List};

    ghost Value = { List ℕ };

    ghost view = { λ l. l.ids.items };
}

impl IdList {
    /// No ids, which allocates nothing.
    pub fn empty(alloc: Global) -> Self
        ensures { result ≡ [] }
    {
        IdList {
            ids: Vec::new(alloc),
        }
    }

    /// These ids.
    pub fn of(ids: Vec<u64>) -> Self
        ensures { result ≡ ids.items }
    {
        IdList { ids }
    }

    /// Whether this id is among them.
    pub fn contains(&self, id: u64) -> bool
        ensures { result ≡ list_any (λ other. other == id) self.now }
    {
        self.ids.contains(&id)
    }
}
