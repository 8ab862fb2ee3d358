ghost use Rattle.std.specs.Prelude.{◌≡◌, ◌∷◌, ◌++◌, [], false, true, is_some, position, OnOk, OnErr, IfSome, IsSomeAnd};
ghost use Rattle.std.specs.List.{list_any, slice_get};
ghost use Rattle.djq_model.specs.Data.{drop_first};
ghost use Rattle.djq_session.specs.Dialog.{PopsWatch};

use super::Session;
use djq_model::NoMem;

/// The place of a query among those that are watched.
fn place_of<Q: Copy + PartialEq>(watches: &[Q], query: Q) -> Option<usize>
    ensures { result ≡ position (λ q. Q.eq q query) watches.now }
{
    watches.iter().position(|watched| *watched == query)
}

/// The same, but one place, which may be past the last, is looked at first.
fn place_near<Q: Copy + PartialEq>(watches: &[Q], query: Q, near: usize) -> Option<usize>
    ensures watched { is_some result ≡ list_any (λ q. Q.eq q query) watches.now }
    ensures place { IfSome result
        (λ k. IsSomeAnd (slice_get watches.now k) (λ q. Q.eq q query ≡ true)) }
{
    if near < watches.len() && watches[near] == query {
        return Some(near);
    }
    place_of(watches, query)
}

impl<C: Copy, Q: Copy + PartialEq> Session<C, Q> {
    /// It watches a further query.
    ///
    /// # Errors
    ///
    /// `NoMem` out of memory; all is as before.
    pub fn watch(&mut self, query: Q) -> Result<(), NoMem>
        requires { list_any (λ q. Q.eq q query) self.old.watches ≡ false }
        ensures watched { OnOk result (self.new ≡ record self.old
            { watches = self.old.watches ++ query ∷ [] }) }
        ensures stays { OnErr result (self.new ≡ self.old) }
    {
        self.watches.push(query)?;
        Ok(())
    }

    /// Whether it watches a query.
    pub fn watches(&self, query: Q) -> bool
        ensures { result ≡ list_any (λ q. Q.eq q query) self.now.watches }
    {
        self.watches.iter().any(|watched| *watched == query)
    }

    /// A place of a query among those that it watches. `None` if it doesn't watch it. Whoever asks for
    /// many in the order of watching passes a likely place, which is looked at first.
    pub fn watch_near(&self, query: Q, near: usize) -> Option<usize>
        ensures watched { is_some result ≡ list_any (λ q. Q.eq q query) self.now.watches }
        ensures place { IfSome result
            (λ k. IsSomeAnd (slice_get self.now.watches k) (λ q. Q.eq q query ≡ true)) }
    {
        place_near(self.watches.as_slice(), query, near)
    }

    /// It watches a query no more, if it did.
    pub fn unwatch(&mut self, query: Q)
        ensures { self.new ≡ record self.old {
          watches = drop_first
              (λ q. Q.eq q query) self.old.watches;
        } }
    {
        if let Some(at) = place_of(self.watches.as_slice(), query) {
            let _gone = self.watches.remove(at);
        }
    }

    /// Ends the watch of the query that it began to watch last, and returns it. `None` if none is left.
    pub fn pop_watch(&mut self) -> Option<Q>
        ensures { PopsWatch self.old self.new result }
    {
        self.watches.pop()
    }
}
