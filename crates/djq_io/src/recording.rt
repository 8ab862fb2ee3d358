ghost use Rattle.std.specs.Prelude.{◌≡◌, [], ◌∷◌, Some, None, MatchResult};
ghost use Rattle.std.specs.Option.{option_copied};
ghost use Rattle.djq_io.specs.Sink.{Gains};

use std::alloc::{AllocError, Global};
use std::marker::Model;

/// The events of an object in memory, in order, seen as that list, or as `None` after it is
/// lost.
///
/// It is lost when a growth is refused, and for ever: a record with a gap would be a false one.
#[derive(Debug, Drop)]
pub struct Recording<T: Drop> {
    items: Vec<T>,
    lost: bool,
}

impl<T: Drop> Model for Recording<T> {
    ghost use Rattle.std.specs.Prelude.{List, Option, Some, None, if◌then◌else◌};

    ghost Value = { Option (List T) };

    ghost view = { λ r. if r.lost then None else Some r.items.items };
}

impl<T: Drop> Recording<T> {
    /// Nothing yet.
    pub fn new(alloc: Global) -> Self
        ensures { result ≡ Some [] }
    {
        Recording {
            items: Vec::new(alloc),
            lost: false,
        }
    }

    /// All of it, in order, or `None` after it is lost.
    pub fn items(&self) -> Option<&[T]>
        ensures { option_copied result ≡ self.now }
    {
        if self.lost {
            None
        } else {
            Some(self.items.as_slice())
        }
    }

    /// Appends one more.
    pub fn push(&mut self, item: T)
        ensures { Gains self.old self.new (item ∷ []) }
    {
        if !self.lost && self.items.push(item).is_err() {
            self.lost = true;
        }
    }

    /// Appends one more, or loses all if there was no memory to make it.
    pub fn push_made(&mut self, item: Result<T, AllocError>)
        ensures { MatchResult item (λ made. Gains self.old self.new (made ∷ [])) (λ _. self.new ≡ None) }
    {
        match item {
            Ok(made) => self.push(made),
            Err(_) => self.lost = true,
        }
    }
}

impl Recording<u8> {
    /// Appends bytes.
    pub fn extend(&mut self, bytes: &[u8])
        ensures { Gains self.old self.new bytes.now }
    {
        if !self.lost && self.items.extend_from_slice(bytes).is_err() {
            self.lost = true;
        }
    }
}
