ghost use Rattle.std.specs.Prelude.{◌≡◌, ◌≢◌, ◌+◌, ◌-◌, ◌<◌, ◌≤◌, ◌==◌, true, false, length, slice_index, is_some, Some};
ghost use Rattle.std.specs.Prelude.{IfOk, OnErr, MatchOption};
ghost use Rattle.djq_arena.specs.declared.link.TheConstants.{SLOTS};
ghost use Rattle.djq_forest.specs.Index.{HasNoEntry, IsFreeSlot, HasFreeSlot, IsWanted};
ghost use Rattle.djq_forest.specs.KnotSlots.{knot_slots, put_slots, empty_knot, IsWantedFor};
ghost use Rattle.djq_forest.specs.SlotEntries.{tuple_of_slot, IsTaken, with_slots, with_entry, with_free, with_unmet};
ghost use Rattle.djq_forest.specs.SlotEntries.{with_refs, marked_by, AreSlotEntries};
ghost use Rattle.djq_forest.specs.declared.slots.TheConstants.{OUT};

use crate::index::{Index, longer};
use crate::slots::{Note, Slots};
use std::alloc::{AllocError, Global};
use std::marker::Model;

/// A knot: a leaf, whose entries lie in their rows' slots, or a view, whose entries are found by their tuples.
#[derive(Drop)]
pub struct Knot {
    leaf: bool,
    rank: usize,
    slots: Slots,
    // of a view; a leaf's has nothing
    index: Index,
}

impl Model for Knot {
    ghost use Rattle.djq_forest.specs.Forest as spec;

    ghost Value = { spec.Knot };

    ghost use Rattle.djq_forest.specs.KnotSlots.{as_knot, IsIndexed};

    ghost view = { λ k. as_knot k.leaf k.rank k.slots };

    ghost invariant = { λ k. IsIndexed k.leaf k.index k.slots };
}

impl Knot {
    /// A knot without slots. It fails only out of memory.
    pub fn new(alloc: Global, leaf: bool, width: usize, rank: usize) -> Result<Knot, AllocError>
        ensures { IfOk result (λ knot. knot ≡ empty_knot leaf width rank) }
    {
        let index = Index::new(alloc)?;
        Ok(Knot {
            leaf,
            rank,
            slots: Slots::new(alloc, width),
            index,
        })
    }

    /// What holds of all slots. It does nothing.
    pub fn laws(&self)
        ensures { AreSlotEntries (knot_slots self.now) }
    {
        self.slots.laws();
    }

    /// Whether it is a leaf.
    pub fn is_leaf(&self) -> bool
        ensures { result ≡ self.now.leaf }
    {
        self.leaf
    }

    /// How many slots there are.
    pub fn len(&self) -> usize
        ensures { result ≡ length self.now.tuples }
    {
        self.slots.len()
    }

    /// Whether there is an entry in a slot.
    pub fn has(&self, slot: u32) -> bool
        requires { slot < length self.now.tuples }
        ensures { result ≡ is_some (tuple_of_slot (knot_slots self.now) slot) }
    {
        self.slots.has(slot)
    }

    /// The tuple of the entry in a slot.
    pub fn tuple(&self, slot: u32) -> &[u64]
        requires { IsTaken (knot_slots self.now) slot }
        ensures { tuple_of_slot (knot_slots self.now) slot ≡ Some result.now }
    {
        self.slots.tuple(slot)
    }

    /// The numbers of the entry in a slot.
    pub fn note(&self, slot: u32) -> Note
        requires { slot < length self.now.tuples }
        ensures missing { result.missing ≡ slice_index self.now.missing slot }
        ensures refs { result.refs ≡ slice_index self.now.refs slot }
        ensures mark { result.mark ≡ slice_index self.now.marks slot }
    {
        self.slots.note(slot)
    }

    /// The slot of a view's entry with a tuple; none if no entry has it.
    pub fn find(&self, tuple: &[u64]) -> Option<u32>
        requires { self.now.leaf ≡ false }
        ensures { MatchOption result (HasNoEntry self.now.tuples tuple.now)
            (λ slot. tuple_of_slot (knot_slots self.now) slot ≡ Some tuple.now) }
    {
        self.index.find(&self.slots, tuple)
    }

    /// How many slots a view is to have for one to be free. It fails only if there can't be so many.
    pub fn wanted(&self) -> Result<usize, AllocError>
        requires { self.now.leaf ≡ false }
        ensures { IfOk result (λ count. IsWanted self.now.tuples count) }
    {
        self.index.wanted(&self.slots)
    }

    /// How many slots a leaf is to have before a row's tuple is inserted into this one: as many as there are if it is
    /// one of them, else an eighth more, and a few. It fails only if there can't be so many.
    pub fn wanted_for(&self, slot: u32) -> Result<usize, AllocError>
        ensures { IfOk result (λ count. IsWantedFor self.now.tuples slot count) }
    {
        self.slots.laws();
        if (slot as usize) < self.slots.len() {
            return Ok(self.slots.len());
        }
        longer(slot as usize)
    }

    /// Makes so many slots. It fails only out of memory, and then all stays as it was.
    pub fn grow(&mut self, alloc: Global, count: usize) -> Result<(), AllocError>
        requires few { count ≤ SLOTS }
        requires more { length self.old.tuples ≤ count }
        requires wanted { self.old.leaf ≡ false → IsWanted self.old.tuples count }
        ensures grown { IfOk result (λ _. self.new ≡ put_slots self.old (with_slots (knot_slots self.old) count)) }
        ensures refused { OnErr result (self.new ≡ self.old) }
    {
        if self.leaf {
            return self.slots.grow(count);
        }
        self.index.grow(alloc, &mut self.slots, count)
    }

    /// Puts an entry with a tuple, and with so many unmet needs, into a free slot of a view, which it returns.
    pub fn insert(&mut self, tuple: &[u64], missing: u32) -> u32
        requires view { self.old.leaf ≡ false }
        requires room { HasFreeSlot self.old.tuples }
        requires wide { length tuple.now ≡ self.old.width }
        requires some { missing ≢ OUT }
        ensures free { IsFreeSlot self.old.tuples result }
        ensures inserted { self.new ≡ put_slots self.old (with_entry (knot_slots self.old) result tuple.now missing) }
    {
        self.index.insert(&mut self.slots, tuple, missing)
    }

    /// Removes the entry in a slot of a view, which is free then.
    pub fn remove(&mut self, slot: u32)
        requires view { self.old.leaf ≡ false }
        requires taken { IsTaken (knot_slots self.old) slot }
        ensures { self.new ≡ put_slots self.old (with_free (knot_slots self.old) slot) }
    {
        self.index.remove(&mut self.slots, slot);
    }

    /// Puts an entry with a row's tuple, and with so many unmet needs, into the row's slot of a leaf.
    pub fn put(&mut self, slot: u32, tuple: &[u64], missing: u32)
        requires leaf { self.old.leaf ≡ true }
        requires within { slot < length self.old.tuples }
        requires wide { length tuple.now ≡ self.old.width }
        requires some { missing ≢ OUT }
        ensures { self.new ≡ put_slots self.old (with_entry (knot_slots self.old) slot tuple.now missing) }
    {
        self.slots.put(slot, tuple, missing);
    }

    /// Removes the entry in a slot of a leaf, if there is one.
    pub fn free(&mut self, slot: u32)
        requires leaf { self.old.leaf ≡ true }
        requires within { slot < length self.old.tuples }
        ensures { self.new ≡ put_slots self.old (with_free (knot_slots self.old) slot) }
    {
        self.slots.free(slot);
    }

    /// Counts one unmet need less of the entry in a slot. Returns whether all are met.
    pub fn lower_missing(&mut self, slot: u32) -> bool
        requires taken { IsTaken (knot_slots self.old) slot }
        requires some { 0 < slice_index self.old.missing slot }
        ensures lowered { self.new ≡ put_slots self.old (with_unmet (knot_slots self.old) slot
            (slice_index self.old.missing slot - 1)) }
        ensures all { result ≡ (slice_index self.old.missing slot - 1 == 0) }
    {
        self.slots.lower_missing(slot)
    }

    /// Counts one unmet need more of the entry in a slot. Returns whether all were met before.
    pub fn raise_missing(&mut self, slot: u32) -> bool
        requires taken { IsTaken (knot_slots self.old) slot }
        requires few { slice_index self.old.missing slot + 1 < OUT }
        ensures raised { self.new ≡ put_slots self.old (with_unmet (knot_slots self.old) slot
            (slice_index self.old.missing slot + 1)) }
        ensures all { result ≡ (slice_index self.old.missing slot == 0) }
    {
        self.slots.raise_missing(slot)
    }

    /// Counts one entry more that is tied to the one in a slot.
    pub fn raise_refs(&mut self, slot: u32)
        requires taken { IsTaken (knot_slots self.old) slot }
        requires few { slice_index self.old.refs slot < OUT }
        ensures { self.new ≡ put_slots self.old (with_refs (knot_slots self.old) slot
            (slice_index self.old.refs slot + 1)) }
    {
        self.slots.raise_refs(slot);
    }

    /// Counts one entry less that is tied to the one in a slot. Returns whether none is left.
    pub fn lower_refs(&mut self, slot: u32) -> bool
        requires taken { IsTaken (knot_slots self.old) slot }
        requires some { 0 < slice_index self.old.refs slot }
        ensures lowered { self.new ≡ put_slots self.old (with_refs (knot_slots self.old) slot
            (slice_index self.old.refs slot - 1)) }
        ensures none { result ≡ (slice_index self.old.refs slot - 1 == 0) }
    {
        self.slots.lower_refs(slot)
    }

    /// Marks the entry in a slot by a change.
    pub fn set_mark(&mut self, slot: u32, change: u32)
        requires { IsTaken (knot_slots self.old) slot }
        ensures { self.new ≡ put_slots self.old (marked_by (knot_slots self.old) slot change) }
    {
        self.slots.set_mark(slot, change);
    }
}
