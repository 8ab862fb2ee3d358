//! A tuple is written into a slot, after all others.
ghost use Rattle.std.specs.Prelude.{◌≡◌, ℕ, ◌-◌, ◌<◌, ◌≤◌, false, length, vec_len};
ghost use Rattle.std.specs.Prelude.{vec_capacity, IfOk, OnErr};
ghost use Rattle.djq_arena.specs.Chains.{pair_at};
ghost use Rattle.djq_arena.specs.Rows.{IsFull};
ghost use Rattle.djq_index.specs.Raw.{RowsCanTake, IsLaid, IsSlotFor, IsUnlaid};

use crate::raw::Note;
use djq_arena::{Arena, Link, Pair};
use std::alloc::AllocError;

/// Room for the neighbours of one more slot. It is a function of its own, so that a tuple for which there is room
/// saves fewer registers.
#[inline(never)]
fn grow_links(links: &mut Vec<Pair>) -> Result<(), AllocError>
    ensures room { IfOk result (λ _. vec_len links.new < vec_capacity links.new) }
    ensures same { links.new.items ≡ links.old.items }
{
    links.reserve(1)
}

/// Writes a tuple into a slot, after all others. There is room for the note of a new slot. Out of memory, the rows
/// stay as they were.
#[inline(always)]
fn append_row_ready(
    rows: &mut Arena,
    notes: &mut Vec<Note>,
    tuple: &[u64],
) -> Result<u32, AllocError>
    requires ready { RowsCanTake rows.old notes.old.items tuple.now }
    requires room { IsFull rows.old → vec_len notes.old < vec_capacity notes.old }
    ensures laid { IfOk result (λ slot. IsLaid rows.old rows.new notes.old.items notes.new.items slot tuple.now) }
    ensures slot { IfOk result (λ slot. IsSlotFor rows.old rows.new slot) }
    ensures refused { OnErr result (IsUnlaid rows.old rows.new notes.old.items notes.new.items) }
{
    let slot = rows.push(tuple)?;
    rows.laws();
    if slot as usize == notes.len() {
        notes.push_reserved(Note {
            supports: 0,
            head: 0,
            marked: false,
        });
    }
    Ok(slot)
}

/// The same if there may be no room for the note of a new slot. It is a function of its own, so that a tuple for which
/// there is room saves fewer registers.
#[inline(never)]
fn append_row_growing(
    rows: &mut Arena,
    notes: &mut Vec<Note>,
    tuple: &[u64],
) -> Result<u32, AllocError>
    requires full { IsFull rows.old }
    requires ready { RowsCanTake rows.old notes.old.items tuple.now }
    ensures laid { IfOk result (λ slot. IsLaid rows.old rows.new notes.old.items notes.new.items slot tuple.now) }
    ensures slot { IfOk result (λ slot. IsSlotFor rows.old rows.new slot) }
    ensures refused { OnErr result (IsUnlaid rows.old rows.new notes.old.items notes.new.items) }
{
    notes.reserve(1)?;
    append_row_ready(rows, notes, tuple)
}

/// Writes a tuple into a slot, after all others. Out of memory, the rows stay as they were.
pub fn append_row(rows: &mut Arena, notes: &mut Vec<Note>, tuple: &[u64]) -> Result<u32, AllocError>
    requires ready { RowsCanTake rows.old notes.old.items tuple.now }
    ensures laid { IfOk result (λ slot. IsLaid rows.old rows.new notes.old.items notes.new.items slot tuple.now) }
    ensures slot { IfOk result (λ slot. IsSlotFor rows.old rows.new slot) }
    ensures refused { OnErr result (IsUnlaid rows.old rows.new notes.old.items notes.new.items) }
{
    if rows.is_full() && notes.len() == notes.capacity() {
        append_row_growing(rows, notes, tuple)
    } else {
        append_row_ready(rows, notes, tuple)
    }
}

/// Lays a tuple into a slot that has neighbours.
pub fn append_linked_row(
    rows: &mut Arena,
    notes: &mut Vec<Note>,
    links: &mut Vec<Pair>,
    tuple: &[u64],
) -> Result<u32, AllocError>
    requires ready { RowsCanTake rows.old notes.old.items tuple.now }
    requires links { rows.old.room ≤ length links.old.items }
    ensures laid { IfOk result (λ slot. IsLaid rows.old rows.new notes.old.items notes.new.items slot tuple.now) }
    ensures refused { OnErr result (IsUnlaid rows.old rows.new notes.old.items notes.new.items) }
    ensures links { rows.new.room ≤ length links.new.items }
    ensures same_links { (k : ℕ) → pair_at links.new.items k ≡ pair_at links.old.items k }
    ensures longer { length links.old.items ≤ length links.new.items }
{
    if rows.is_full() && links.len() == links.capacity() {
        grow_links(links)?;
    }
    let slot = append_row(rows, notes, tuple)?;
    if slot as usize == links.len() {
        links.push_reserved(Pair {
            prev: Link::none(),
            next: Link::none(),
        });
    }
    Ok(slot)
}
