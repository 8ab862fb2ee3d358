ghost use Rattle.std.specs.Prelude.{◌≡◌, ◌≢◌, ◌+◌, ◌*◌, ◌-◌, ◌<◌, ◌≤◌, ◌==◌, ◌++◌, ℕ, List, [], length, take};
ghost use Rattle.std.specs.Prelude.{drop};
ghost use Rattle.std.specs.Prelude.{replicate, slice_index, slice_set, is_some, Some, IfOk, OnErr};
ghost use Rattle.djq_arena.specs.declared.link.TheConstants.{SLOTS};
ghost use Rattle.djq_arena.specs.Store.{cells_at};
ghost use Rattle.djq_forest.specs.SlotEntries.{tuple_of_slot, IsTaken, with_slots, with_entry, with_free};
ghost use Rattle.djq_forest.specs.SlotEntries.{with_numbers, with_unmet, with_refs, marked_by, AreSlotEntries};
ghost use Rattle.djq_forest.specs.Slots.{free_note, note_in};

use std::alloc::{AllocError, Global};
use std::marker::Model;

/// The number of unmet needs that marks a slot without an entry.
pub const OUT: u32 = u32::MAX;

/// What is noted of an entry: how many of its needs aren't met, how many entries are tied to it, and by which change it
/// was marked last.
#[derive(Clone, Copy)]
pub struct Note {
    pub missing: u32,
    pub refs: u32,
    pub mark: u32,
}

/// The entries of a knot. Each lies in a slot, whose number stays the same as long as the entry is there. The caller
/// chooses the slot of a new entry.
#[derive(Drop)]
pub struct Slots {
    width: usize,
    cells: Vec<u64>,
    notes: Vec<Note>,
}

impl Model for Slots {
    ghost use Rattle.djq_forest.specs.SlotEntries.{SlotEntries};

    ghost Value = { SlotEntries };

    ghost use Rattle.djq_forest.specs.Slots.{slot_tuples, missing_in, refs_in, marks_in, SlotsAreSound};

    ghost view = { λ s. record {
      width = s.width;
      tuples = slot_tuples s.width s.cells.items s.notes.items;
      missing = missing_in s.notes.items;
      refs = refs_in s.notes.items;
      marks = marks_in s.notes.items;
    } };

    ghost invariant = { λ s. SlotsAreSound s.width s.cells.items s.notes.items };
}

/// The note of a slot.
fn note_of(notes: &Vec<Note>, slot: u32) -> Note
    requires { slot < length notes.now.items }
    ensures { result ≡ note_in notes.now.items slot }
{
    notes[slot as usize]
}

/// Writes the note of a slot.
fn set_note(notes: &mut Vec<Note>, slot: u32, note: Note)
    requires { slot < length notes.old.items }
    ensures { notes.new.items ≡ slice_set notes.old.items slot note }
{
    notes[slot as usize] = note;
}

/// The cells of a slot.
#[tactic(auto, unfolding(djq_arena::specs::Store::cells_at))]
fn cells_of(cells: &Vec<u64>, width: usize, slot: u32) -> &[u64]
    requires { slot * width + width ≤ length cells.now.items }
    ensures { result.now ≡ cells_at width cells.now.items slot }
{
    let from = slot as usize * width;
    &cells[from..from + width]
}

/// Writes cells over those from one on. Tuples are short, so that a loop costs less than a call.
fn overwrite(cells: &mut Vec<u64>, from: usize, new: &[u64])
    requires { from + length new.now ≤ length cells.old.items }
    ensures { cells.new.items ≡ take from cells.old.items ++ new.now ++ drop (from + length new.now) cells.old.items }
{
    for at in 0..new.len() {
        cells[from + at] = new[at];
    }
}

/// Makes so many cells at least.
fn resize_cells(cells: &mut Vec<u64>, count: usize) -> Result<(), AllocError>
    ensures more { IfOk result (λ _. cells.new.items ≡ cells.old.items ++ replicate (count - length cells.old.items) 0) }
    ensures refused { OnErr result (cells.new.items ≡ cells.old.items) }
{
    if count <= cells.len() {
        return Ok(());
    }
    cells.resize(count, 0)
}

/// Makes so many notes, the new ones of slots without an entry.
fn resize_notes(notes: &mut Vec<Note>, slots: usize) -> Result<(), AllocError>
    requires { length notes.old.items ≤ slots }
    ensures more { IfOk result (λ _. notes.new.items ≡ notes.old.items ++ replicate (slots - length notes.old.items) free_note) }
    ensures refused { OnErr result (notes.new.items ≡ notes.old.items) }
{
    notes.resize(
        slots,
        Note {
            missing: OUT,
            refs: 0,
            mark: 0,
        },
    )
}

impl Slots {
    /// No slots, for tuples of so many cells.
    pub fn new(alloc: Global, width: usize) -> Slots
        ensures { result ≡ record { width = width; tuples = []; missing = []; refs = []; marks = [] } }
    {
        Slots {
            width,
            cells: Vec::new(alloc),
            notes: Vec::new(alloc),
        }
    }

    /// What holds of all slots. It does nothing.
    pub fn laws(&self)
        ensures { AreSlotEntries self.now }
    {
        let _ = &self.notes;
    }

    /// How many slots there are.
    pub fn len(&self) -> usize
        ensures { result ≡ length self.now.tuples }
    {
        self.notes.len()
    }

    /// Makes so many slots. It fails only out of memory, and then all stays as it was.
    pub fn grow(&mut self, slots: usize) -> Result<(), AllocError>
        requires few { slots ≤ SLOTS }
        requires more { length self.old.tuples ≤ slots }
        ensures grown { IfOk result (λ _. self.new ≡ with_slots self.old slots) }
        ensures refused { OnErr result (self.new ≡ self.old) }
    {
        let Some(count) = slots.checked_mul(self.width) else {
            return Err(AllocError);
        };
        resize_cells(&mut self.cells, count)?;
        resize_notes(&mut self.notes, slots)
    }

    /// Whether there is an entry in a slot.
    pub fn has(&self, slot: u32) -> bool
        requires { slot < length self.now.tuples }
        ensures { result ≡ is_some (tuple_of_slot self.now slot) }
    {
        note_of(&self.notes, slot).missing != OUT
    }

    /// The tuple of the entry in a slot.
    pub fn tuple(&self, slot: u32) -> &[u64]
        requires { IsTaken self.now slot }
        ensures { tuple_of_slot self.now slot ≡ Some result.now }
    {
        cells_of(&self.cells, self.width, slot)
    }

    /// The numbers of the entry in a slot.
    pub fn note(&self, slot: u32) -> Note
        requires { slot < length self.now.tuples }
        ensures missing { result.missing ≡ slice_index self.now.missing slot }
        ensures refs { result.refs ≡ slice_index self.now.refs slot }
        ensures mark { result.mark ≡ slice_index self.now.marks slot }
    {
        note_of(&self.notes, slot)
    }

    /// Puts an entry with a tuple, and with so many unmet needs, into a slot.
    pub fn put(&mut self, slot: u32, tuple: &[u64], missing: u32)
        requires within { slot < length self.old.tuples }
        requires wide { length tuple.now ≡ self.old.width }
        requires some { missing ≢ OUT }
        ensures { self.new ≡ with_entry self.old slot tuple.now missing }
    {
        overwrite(&mut self.cells, slot as usize * self.width, tuple);
        set_note(
            &mut self.notes,
            slot,
            Note {
                missing,
                refs: 0,
                mark: 0,
            },
        );
    }

    /// Removes the entry in a slot, if there is one.
    pub fn free(&mut self, slot: u32)
        requires { slot < length self.old.tuples }
        ensures { self.new ≡ with_free self.old slot }
    {
        set_note(
            &mut self.notes,
            slot,
            Note {
                missing: OUT,
                refs: 0,
                mark: 0,
            },
        );
    }

    /// Writes the numbers of the entry in a slot.
    pub fn set(&mut self, slot: u32, note: Note)
        requires taken { IsTaken self.old slot }
        requires some { note.missing ≢ OUT }
        ensures { self.new ≡ with_numbers self.old slot note.missing note.refs note.mark }
    {
        set_note(&mut self.notes, slot, note);
    }

    /// Counts one unmet need less of the entry in a slot. Returns whether all are met.
    pub fn lower_missing(&mut self, slot: u32) -> bool
        requires taken { IsTaken self.old slot }
        requires some { 0 < slice_index self.old.missing slot }
        ensures lowered { self.new ≡ with_unmet self.old slot (slice_index self.old.missing slot - 1) }
        ensures all { result ≡ (slice_index self.old.missing slot - 1 == 0) }
    {
        let Note {
            missing,
            refs,
            mark,
        } = note_of(&self.notes, slot);
        let left = missing - 1;
        set_note(
            &mut self.notes,
            slot,
            Note {
                missing: left,
                refs,
                mark,
            },
        );
        left == 0
    }

    /// Counts one unmet need more of the entry in a slot. Returns whether all were met before.
    pub fn raise_missing(&mut self, slot: u32) -> bool
        requires taken { IsTaken self.old slot }
        requires few { slice_index self.old.missing slot + 1 < OUT }
        ensures raised { self.new ≡ with_unmet self.old slot (slice_index self.old.missing slot + 1) }
        ensures all { result ≡ (slice_index self.old.missing slot == 0) }
    {
        let Note {
            missing,
            refs,
            mark,
        } = note_of(&self.notes, slot);
        let more = missing + 1;
        set_note(
            &mut self.notes,
            slot,
            Note {
                missing: more,
                refs,
                mark,
            },
        );
        missing == 0
    }

    /// Counts one entry more that is tied to the one in a slot.
    pub fn raise_refs(&mut self, slot: u32)
        requires taken { IsTaken self.old slot }
        requires few { slice_index self.old.refs slot < OUT }
        ensures { self.new ≡ with_refs self.old slot (slice_index self.old.refs slot + 1) }
    {
        let Note {
            missing,
            refs,
            mark,
        } = note_of(&self.notes, slot);
        let more = refs + 1;
        set_note(
            &mut self.notes,
            slot,
            Note {
                missing,
                refs: more,
                mark,
            },
        );
    }

    /// Counts one entry less that is tied to the one in a slot. Returns whether none is left.
    pub fn lower_refs(&mut self, slot: u32) -> bool
        requires taken { IsTaken self.old slot }
        requires some { 0 < slice_index self.old.refs slot }
        ensures lowered { self.new ≡ with_refs self.old slot (slice_index self.old.refs slot - 1) }
        ensures none { result ≡ (slice_index self.old.refs slot - 1 == 0) }
    {
        let Note {
            missing,
            refs,
            mark,
        } = note_of(&self.notes, slot);
        let left = refs - 1;
        set_note(
            &mut self.notes,
            slot,
            Note {
                missing,
                refs: left,
                mark,
            },
        );
        left == 0
    }

    /// Marks the entry in a slot by a change.
    pub fn set_mark(&mut self, slot: u32, change: u32)
        requires { IsTaken self.old slot }
        ensures { self.new ≡ marked_by self.old slot change }
    {
        let Note {
            missing,
            refs,
            mark: _,
        } = note_of(&self.notes, slot);
        set_note(
            &mut self.notes,
            slot,
            Note {
                missing,
                refs,
                mark: change,
            },
        );
    }
}
