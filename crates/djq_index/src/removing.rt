//! A tuple is removed, and its group's head with the last of the group.
ghost use Rattle.std.specs.Prelude.{◌≡◌, ℕ, ◌+◌, ◌-◌, ◌<◌, List, Some, None};
ghost use Rattle.djq_index.specs.Table.{IsAt, IsOccupied};
ghost use Rattle.djq_index.specs.Changes.{Removed};
ghost use Rattle.djq_index.specs.Raw.{HoldsTuples, AreHeads, entries_of, passed};

use crate::heads::{prune, unlink};
use crate::place::Place;
use crate::raw::{Raw, note_of};

/// The first marked slot, once this one, which is followed by `next`, is removed.
fn first_mark_without(marked: Option<u32>, slot: u32, next: Option<u32>) -> Option<u32>
    ensures { result ≡ passed marked slot next }
{
    match marked {
        None => None,
        Some(first) => { if first == slot { next } else { Some(first) } }
    }
}

/// Removes the tuple at a place, and its group's head with the last of the group.
pub fn remove_keyed(raw: &mut Raw, place: Place)
    requires raw { HoldsTuples raw.old }
    requires heads { AreHeads raw.old }
    requires live { IsOccupied (entries_of raw.old) place }
    ensures raw { HoldsTuples raw.new }
    ensures heads { AreHeads raw.new }
    ensures removed { (u : List ℕ) → IsAt (entries_of raw.old) place u
        → Removed (entries_of raw.old) (entries_of raw.new) u }
    ensures kind { raw.new.kind ≡ raw.old.kind }
    ensures key { raw.new.key.items ≡ raw.old.key.items }
    ensures width { raw.new.rows.width ≡ raw.old.rows.width }
{
    let slot = place.slot();
    let head = note_of(&raw.notes, slot).head;
    raw.marked = first_mark_without(raw.marked, slot, raw.rows.next(slot));
    unlink(&mut raw.links, &mut raw.ends, slot, head);
    prune(&mut raw.keys, &raw.ends, head);
    raw.rows.remove(slot);
    raw.rows.laws();
}

/// Removes the tuple at a place, if its group needs nothing.
pub fn remove_bare(raw: &mut Raw, place: Place)
    requires raw { HoldsTuples raw.old }
    requires live { IsOccupied (entries_of raw.old) place }
    ensures raw { HoldsTuples raw.new }
    ensures removed { (u : List ℕ) → IsAt (entries_of raw.old) place u
        → Removed (entries_of raw.old) (entries_of raw.new) u }
    ensures kind { raw.new.kind ≡ raw.old.kind }
    ensures key { raw.new.key.items ≡ raw.old.key.items }
    ensures width { raw.new.rows.width ≡ raw.old.rows.width }
{
    let slot = place.slot();
    raw.marked = first_mark_without(raw.marked, slot, raw.rows.next(slot));
    raw.rows.remove(slot);
    raw.rows.laws();
}
