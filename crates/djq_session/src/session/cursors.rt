ghost use Rattle.std.specs.Prelude.{◌≡◌, ◌∷◌, ◌++◌, ◌<◌, [], length, None, option_map, position};
ghost use Rattle.std.specs.Prelude.{OnOk, OnErr};
ghost use Rattle.djq_model.specs.Data.{drop_first};
ghost use Rattle.djq_protocol.specs.declared.limits.TheConstants.{CURSORS};
ghost use Rattle.djq_session.specs.Dialog.{named, cursor_is_named, PopsCursor};

use super::Session;
use crate::named::NamedCursor;
use djq_model::{Name, NoMem};

/// The place of the cursor of a name.
fn place_of<C>(cursors: &[NamedCursor<C>], name: &Name) -> Option<usize>
    ensures { result ≡ position (cursor_is_named name.now) cursors.now }
{
    cursors.iter().position(|named| named.name == *name)
}

impl<C: Copy, Q: Copy + PartialEq> Session<C, Q> {
    /// What is stored for the cursor of a name. `None` if there is no such cursor.
    pub fn cursor(&self, name: &Name) -> Option<C>
        ensures { result ≡ option_map (λ n. n.cursor) (named self.now.cursors name.now) }
    {
        self.cursors
            .iter()
            .find(|named| named.name == *name)
            .map(|named| named.cursor)
    }

    /// How many cursors it has.
    pub fn cursors(&self) -> usize
        ensures { result ≡ length self.now.cursors }
    {
        self.cursors.len()
    }

    /// Appends a cursor to the others.
    ///
    /// # Errors
    ///
    /// `NoMem` out of memory; all is as before.
    pub fn add_cursor(&mut self, name: &Name, cursor: C) -> Result<(), NoMem>
        requires absent { named self.old.cursors name.now ≡ None }
        requires few { length self.old.cursors < CURSORS }
        ensures there { OnOk result (self.new ≡ record self.old
            { cursors = self.old.cursors ++ record { name = name.now; cursor = cursor } ∷ [] }) }
        ensures stays { OnErr result (self.new ≡ self.old) }
    {
        self.cursors.push(NamedCursor {
            name: *name,
            cursor,
        })?;
        Ok(())
    }

    /// Removes the cursor of a name, if there is one.
    pub fn drop_cursor(&mut self, name: &Name)
        ensures { self.new ≡ record self.old {
          cursors = drop_first
              (cursor_is_named name.now) self.old.cursors;
        } }
    {
        if let Some(at) = place_of(self.cursors.as_slice(), name) {
            let _gone = self.cursors.remove(at);
        }
    }

    /// Removes the cursor that was opened last, and returns what is stored for it. `None` if none
    /// is left.
    pub fn pop_cursor(&mut self) -> Option<C>
        ensures { PopsCursor self.old self.new result }
    {
        self.cursors.pop().map(|named| named.cursor)
    }
}
