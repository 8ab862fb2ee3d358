//! Keys in slots, which need no memory before the first.
ghost use Rattle.std.specs.Prelude.{◌≡◌, [], ◌∷◌, ◌++◌, ◌+◌, ◌<◌, ◌≤◌, List, length, max, IfOk, MatchOption};
ghost use Rattle.djq_arena.specs.Rows.{Row, IsRow, IsRowHeld, IsAbsent, AreRows};
ghost use Rattle.djq_arena.specs.declared.link.TheConstants.{SLOTS};

use djq_arena::Arena;
use djq_model::NoMem;
use std::alloc::Global;
use std::marker::Model;

/// Keys of one width, each in a slot. They are an arena, which is made with the first key.
#[derive(Drop)]
pub struct Keys {
    alloc: Global,
    width: usize,
    arena: Option<Arena>,
}

impl Model for Keys {
    ghost use Rattle.djq_arena.specs.Rows.{SlotRows};

    ghost Value = { SlotRows };

    ghost use Rattle.djq_transaction.specs.Keys.{keys_of, HaveTheirWidth};

    ghost view = { keys_of };

    ghost invariant = { HaveTheirWidth };
}

impl Keys {
    /// No key, of this width.
    pub(crate) fn new(alloc: Global, width: usize) -> Keys
        ensures { result ≡ record { width = width; room = 0; rows = [] } }
    {
        Keys {
            alloc,
            width,
            arena: None,
        }
    }

    /// What holds of all keys. It does nothing.
    pub(crate) fn laws(&self)
        ensures { AreRows self.now }
    {
        if let Some(arena) = &self.arena {
            arena.laws();
        }
    }

    /// The width of the keys.
    pub(crate) fn width(&self) -> usize
        ensures { result ≡ self.now.width }
    {
        self.width
    }

    /// The slot of a key; none if and only if it isn't there.
    pub(crate) fn find(&self, key: &[u64]) -> Option<u32>
        ensures { MatchOption result (IsAbsent self.now.rows key.now) (λ slot. IsRow self.now.rows slot key.now) }
    {
        match &self.arena {
            Some(arena) => arena.find(key),
            None => None,
        }
    }

    /// The cells of the key in a slot.
    pub(crate) fn cells(&self, slot: u32) -> &[u64]
        requires { IsRowHeld self.now.rows slot }
        ensures { (xs : List Row) (r : Row) (ys : List Row) → self.now.rows ≡ xs ++ r ∷ ys
            → r.slot ≡ slot → result.now ≡ r.cells }
    {
        match &self.arena {
            Some(arena) => arena.cells(slot),
            None => unreachable!(),
        }
    }

    /// Appends a key.
    ///
    /// # Errors
    ///
    /// `NoMem` out of memory.
    pub(crate) fn push(&mut self, key: &[u64]) -> Result<u32, NoMem>
        requires wide { length key.now ≡ self.old.width }
        requires few { length self.old.rows < SLOTS }
        ensures pushed { IfOk result (λ slot. self.new.rows ≡ self.old.rows
            ++ record { slot = slot; cells = key.now } ∷ []) }
        ensures room { IfOk result (λ slot. self.new.room ≡ max self.old.room (slot + 1)) }
        ensures slot { IfOk result (λ slot. slot ≤ self.old.room) }
        ensures width { self.new.width ≡ self.old.width }
    {
        match &mut self.arena {
            Some(arena) => Ok(arena.push(key)?),
            None => {
                let mut arena = Arena::new(self.alloc, self.width)?;
                let slot = arena.push(key)?;
                self.arena = Some(arena);
                Ok(slot)
            }
        }
    }
}
