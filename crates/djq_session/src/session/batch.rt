ghost use Rattle.std.specs.Prelude.{◌≡◌, ◌≤◌, length, take, true, None, Some, IsSome, is_some};
ghost use Rattle.std.specs.Prelude.{OnOk, OnErr};
ghost use Rattle.djq_store_spec.specs.Held.{nothing_held, holding, has_room};
ghost use Rattle.djq_session.specs.Dialog.{held_in_batch};

use super::Session;
use djq_model::{Name, NoMem, Value};
use djq_protocol::Verb;
use djq_transaction::Transaction;

impl<C: Copy, Q: Copy + PartialEq> Session<C, Q> {
    /// Whether it has a batch open.
    pub fn has_batch(&self) -> bool
        ensures { result ≡ is_some self.now.batch }
    {
        self.batch.is_some()
    }

    /// A batch is open, which holds no line. It asks for no memory.
    pub fn open_batch(&mut self)
        ensures { self.new ≡ record self.old { batch = Some nothing_held } }
    {
        self.batch = Some(Transaction::new(self.alloc));
    }

    /// How many lines its batch holds; none if none is open.
    pub fn lines_held(&self) -> usize
        ensures { result ≡ length (held_in_batch self.now.batch).lines }
    {
        match &self.batch {
            Some(held) => held.len(),
            None => 0,
        }
    }

    /// Whether its batch may hold one more line, of so many bytes.
    pub fn may_hold(&self, line: usize) -> bool
        requires { IsSome self.now.batch }
        ensures { result ≡ has_room (held_in_batch self.now.batch) line }
    {
        match &self.batch {
            Some(held) => held.has_room(line),
            None => unreachable!(),
        }
    }

    /// Its batch holds one more line after the others: the first bytes that arrived and aren't run, up to `end`. What
    /// the line does to a row of which relation was read from them.
    ///
    /// # Errors
    ///
    /// `NoMem` out of memory; all is as before.
    pub fn hold(
        &mut self,
        verb: Verb,
        relation: Name,
        row: &[Value],
        end: usize,
    ) -> Result<(), NoMem>
        requires open { IsSome self.old.batch }
        requires within { end ≤ length self.old.held }
        requires room { has_room (held_in_batch self.old.batch) end ≡ true }
        ensures holds { OnOk result (self.new ≡ record self.old {
          batch = Some (holding (held_in_batch self.old.batch) verb relation row.now (take end self.old.held));
        }) }
        ensures stays { OnErr result (self.new ≡ self.old) }
    {
        match &mut self.batch {
            Some(held) => held.hold(verb, relation, row, &self.input.as_slice()[..end]),
            None => unreachable!(),
        }
    }

    /// Its batch is closed, and what it held is returned. `None` if none was open.
    pub fn take_batch(&mut self) -> Option<Transaction>
        ensures lines { result ≡ self.old.batch }
        ensures closed { self.new ≡ record self.old { batch = None } }
    {
        self.batch.take()
    }
}
