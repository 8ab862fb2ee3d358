//! Cursors, each in a slot.
ghost use Rattle.std.specs.Prelude.{◌≡◌, [], None, Some, IsSome, IfOk, OnErr, slice_set};
ghost use Rattle.std.specs.Borrow.{sem};
ghost use Rattle.djq_cursors.specs.Slots.{
  slot_at,
  are_vacant,
  HasOpen,
  IsOpenIn,
  OpensSlot,
  outdated_slots,
};

use crate::progress::Progress;
use djq_model::{Name, NoMem};
use slab::Slab;
use std::alloc::Global;
use std::marker::Model;

/// Cursors, each in a slot. Contracts see the list of slots.
#[derive(Drop)]
pub struct Cursors<C> {
    slots: Slab<Progress<C>>,
}

impl<C> Model for Cursors<C> {
    ghost use Rattle.std.specs.Prelude.{List, Option};
    ghost use Rattle.djq_cursors.specs.declared.progress.Progress.{Progress};

    ghost Value = { List (Option (Progress C)) };

    ghost view = { λ c. c.slots.slots };
}

impl<C: Drop> Cursors<C> {
    ghost use Rattle.djq_cursors.specs.Lends.{LendsCursor};

    /// No cursors.
    pub fn new(alloc: Global) -> Self
        ensures { result ≡ [] }
    {
        Cursors {
            slots: Slab::new(alloc),
        }
    }

    /// Puts a cursor into a free slot, and returns the slot.
    ///
    /// # Errors
    ///
    /// `NoMem` out of memory. Nothing has changed.
    pub fn open(&mut self, cursor: C) -> Result<usize, NoMem>
        ensures ok { IfOk result (λ k. OpensSlot self.old k cursor self.new) }
        ensures err { OnErr result (self.new ≡ self.old) }
    {
        let progress = Progress::Open {
            cursor,
            ended: false,
        };
        match self.slots.insert(progress) {
            Ok(slot) => Ok(slot),
            Err(_) => Err(NoMem),
        }
    }

    /// The cursor in a slot, which isn't stale.
    pub fn cursor(&self, slot: usize) -> &C
        requires { IsOpenIn self.now slot }
        ensures { HasOpen self.now slot result.now }
    {
        match &self.slots[slot] {
            Progress::Open { cursor, .. } => cursor,
            Progress::Stale { .. } => unreachable!(),
        }
    }

    /// The progress of the cursor in a slot, to continue its listing.
    pub fn progress_mut(&mut self, slot: usize) -> &mut Progress<C>
        requires { IsSome (slot_at self.old slot) }
        ensures* writes_back { sem 𝓛 (LendsCursor C.row self.entry slot result) }
        ensures value { slot_at self.old slot ≡ Some result.now }
    {
        &mut self.slots[slot]
    }

    /// Whether there is no cursor.
    pub fn is_empty(&self) -> bool
        ensures { result ≡ are_vacant self.now }
    {
        self.slots.is_empty()
    }

    /// Removes the cursor from a slot.
    pub fn close(&mut self, slot: usize)
        requires { IsSome (slot_at self.old slot) }
        ensures { self.new ≡ slice_set self.old slot None }
    {
        let _ = self.slots.remove(slot);
    }

    /// Makes all cursors stale that are open.
    pub fn outdate(&mut self, relation: Name, seq: u64)
        ensures { self.new ≡ outdated_slots relation seq self.old }
    {
        self.slots.retain(|_slot, cursor| {
            cursor.outdate(relation, seq);
            true
        });
    }
}
