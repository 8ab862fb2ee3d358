//! A new tuple is appended to its group, whose head is made if it has none.
ghost use Rattle.std.specs.Prelude.{◌≡◌, ℕ, ◌-◌, ◌<◌, ◌≤◌, ◌⊎◌, false, [], length};
ghost use Rattle.std.specs.Prelude.{IfOk, OnErr, Some, None};
ghost use Rattle.djq_arena.specs.Rows.{AreRows, IsFull};
ghost use Rattle.djq_index.specs.Tuple.{pick};
ghost use Rattle.djq_index.specs.Entries.{count_of, marks};
ghost use Rattle.djq_index.specs.Table.{IsAt, AreColumns};
ghost use Rattle.djq_index.specs.Changes.{InsertedAs};
ghost use Rattle.djq_index.specs.Raw.{HoldsTuples, AreHeads, IsNoted, entries_of, ends_at, IsSeat, HasNoRoomForHead};
ghost use Rattle.djq_arena.specs.declared.link.TheConstants.{SLOTS};

use crate::appending::{append_linked_row, append_row};
use crate::heads::{cell_at, join, new_head, project};
use crate::marking::with_slot;
use crate::place::Place;
use crate::raw::{KEY, Note, Raw, set_note};
use djq_arena::{Arena, Ends, hash_of};
use smallvec::SmallVec;
use std::alloc::AllocError;

/// The head of the group with these cells, which is made if there is none.
fn head_of(keys: &mut Arena, ends: &mut Vec<Ends>, cells: &[u64]) -> Result<u32, AllocError>
    requires rows { AreRows keys.old }
    requires width { keys.old.width ≡ length cells.now }
    requires few { length keys.old.rows < SLOTS }
    requires ends { keys.old.room ≤ length ends.old.items }
    ensures rows { AreRows keys.new }
    ensures width { keys.new.width ≡ keys.old.width }
    ensures ends { keys.new.room ≤ length ends.new.items }
    ensures seated { IfOk result (λ head. IsSeat keys.old.rows keys.new.rows ends.old.items
        ends.new.items head cells.now) }
    ensures refused { OnErr result (keys.new.rows ≡ keys.old.rows) }
    ensures refused_ends { OnErr result ((k : ℕ) → ends_at ends.new.items k ≡ ends_at ends.old.items k) }
    ensures full { OnErr result (IsFull keys.old) }
{
    let code = hash_of(cells);
    match keys.find_hashed(cells, code) {
        Some(head) => Ok(head),
        None => new_head(keys, ends, cells, code),
    }
}

/// The head of a tuple's group, by a key of any columns. It is a function of its own, since most keys have one column.
#[inline(never)]
fn find_or_make_wide_head(
    keys: &mut Arena,
    ends: &mut Vec<Ends>,
    cells: &mut SmallVec<u64, KEY>,
    key: &[usize],
    tuple: &[u64],
) -> Result<u32, AllocError>
    requires rows { AreRows keys.old }
    requires width { keys.old.width ≡ length key.now }
    requires few { length keys.old.rows < SLOTS }
    requires ends { keys.old.room ≤ length ends.old.items }
    requires columns { AreColumns (length tuple.now) key.now }
    ensures rows { AreRows keys.new }
    ensures width { keys.new.width ≡ keys.old.width }
    ensures ends { keys.new.room ≤ length ends.new.items }
    ensures seated { IfOk result (λ head. IsSeat keys.old.rows keys.new.rows ends.old.items
        ends.new.items head (pick key.now tuple.now)) }
    ensures refused { OnErr result (keys.new.rows ≡ keys.old.rows) }
    ensures refused_ends { OnErr result ((k : ℕ) → ends_at ends.new.items k ≡ ends_at ends.old.items k) }
    ensures full { OnErr result (IsFull keys.old ⊎ cells.old.capacity < length key.now) }
{
    project(cells, key, tuple)?;
    head_of(keys, ends, cells.as_slice())
}

/// The head of a tuple's group, which is made if there is none.
fn find_or_make_head(
    keys: &mut Arena,
    ends: &mut Vec<Ends>,
    cells: &mut SmallVec<u64, KEY>,
    key: &[usize],
    tuple: &[u64],
) -> Result<u32, AllocError>
    requires rows { AreRows keys.old }
    requires width { keys.old.width ≡ length key.now }
    requires few { length keys.old.rows < SLOTS }
    requires ends { keys.old.room ≤ length ends.old.items }
    requires columns { AreColumns (length tuple.now) key.now }
    ensures rows { AreRows keys.new }
    ensures width { keys.new.width ≡ keys.old.width }
    ensures ends { keys.new.room ≤ length ends.new.items }
    ensures seated { IfOk result (λ head. IsSeat keys.old.rows keys.new.rows ends.old.items
        ends.new.items head (pick key.now tuple.now)) }
    ensures refused { OnErr result (keys.new.rows ≡ keys.old.rows) }
    ensures refused_ends { OnErr result ((k : ℕ) → ends_at ends.new.items k ≡ ends_at ends.old.items k) }
    ensures full { OnErr result (IsFull keys.old ⊎ cells.old.capacity < length key.now) }
{
    match key {
        [column] => head_of(keys, ends, &[cell_at(tuple, *column)]),
        _ => find_or_make_wide_head(keys, ends, cells, key, tuple),
    }
}

/// Gives a laid tuple one support, and its mark, if any.
fn init_note(raw: &mut Raw, slot: u32, head: u32, marked: bool)
    requires { slot < length raw.old.notes.items }
    ensures noted { IsNoted marked raw.old raw.new raw.old.rows raw.old.notes.items slot head }
    ensures links { raw.new.links.items ≡ raw.old.links.items }
    ensures keys { raw.new.keys ≡ raw.old.keys }
    ensures ends { raw.new.ends.items ≡ raw.old.ends.items }
{
    let note = Note {
        supports: 1,
        head,
        marked,
    };
    set_note(&mut raw.notes, slot, note);
    raw.marked = with_slot(raw.marked, slot, marked);
}

/// Appends a new tuple to the group of its head.
pub fn insert_keyed(raw: &mut Raw, tuple: &[u64], marked: bool) -> Result<Place, AllocError>
    requires raw { HoldsTuples raw.old }
    requires heads { AreHeads raw.old }
    requires absent { count_of (entries_of raw.old) tuple.now ≡ 0 }
    requires wide { length tuple.now ≡ raw.old.rows.width }
    requires few { length (entries_of raw.old) < SLOTS }
    requires plain { marked ≡ false → marks (entries_of raw.old) ≡ [] }
    ensures raw { HoldsTuples raw.new }
    ensures heads { AreHeads raw.new }
    ensures inserted { IfOk result (λ p. InsertedAs marked raw.old.key.items (entries_of raw.old)
        (entries_of raw.new) tuple.now) }
    ensures at { IfOk result (λ p. IsAt (entries_of raw.new) p tuple.now) }
    ensures refused { OnErr result (entries_of raw.new ≡ entries_of raw.old) }
    ensures full { OnErr result (IsFull raw.old.rows ⊎ HasNoRoomForHead raw.old) }
    ensures kind { raw.new.kind ≡ raw.old.kind }
    ensures key { raw.new.key.items ≡ raw.old.key.items }
    ensures width { raw.new.rows.width ≡ raw.old.rows.width }
{
    let slot = append_linked_row(&mut raw.rows, &mut raw.notes, &mut raw.links, tuple)?;
    match find_or_make_head(
        &mut raw.keys,
        &mut raw.ends,
        &mut raw.cells,
        raw.key.as_slice(),
        tuple,
    ) {
        Err(e) => {
            raw.rows.remove(slot);
            raw.rows.laws();
            Err(e)
        }
        Ok(head) => {
            join(&mut raw.links, &mut raw.ends, slot, head);
            init_note(raw, slot, head, marked);
            Ok(Place::new(slot))
        }
    }
}

/// Appends a new tuple to all others, if its group needs nothing.
pub fn insert_bare(raw: &mut Raw, tuple: &[u64], marked: bool) -> Result<Place, AllocError>
    requires raw { HoldsTuples raw.old }
    requires absent { count_of (entries_of raw.old) tuple.now ≡ 0 }
    requires wide { length tuple.now ≡ raw.old.rows.width }
    requires few { length (entries_of raw.old) < SLOTS }
    requires plain { marked ≡ false → marks (entries_of raw.old) ≡ [] }
    ensures raw { HoldsTuples raw.new }
    ensures inserted { IfOk result (λ p. InsertedAs marked raw.old.key.items (entries_of raw.old)
        (entries_of raw.new) tuple.now) }
    ensures at { IfOk result (λ p. IsAt (entries_of raw.new) p tuple.now) }
    ensures refused { OnErr result (entries_of raw.new ≡ entries_of raw.old) }
    ensures full { OnErr result (IsFull raw.old.rows) }
    ensures kind { raw.new.kind ≡ raw.old.kind }
    ensures key { raw.new.key.items ≡ raw.old.key.items }
    ensures width { raw.new.rows.width ≡ raw.old.rows.width }
{
    let slot = append_row(&mut raw.rows, &mut raw.notes, tuple)?;
    init_note(raw, slot, 0, marked);
    Ok(Place::new(slot))
}
