//! The parts of a table, and the notes of its slots.
ghost use Rattle.std.specs.Prelude.{◌≡◌, ◌-◌, ◌<◌, length, slice_set, Some, None};
ghost use Rattle.djq_index.specs.Raw.{place_of, note_at};

use crate::kind::Kind;
use crate::place::Place;
use djq_arena::{Arena, Ends, Pair};
use smallvec::SmallVec;

/// The columns of a key, and its cells, that a table has inline. Most keys have one or two.
pub const KEY: usize = 2;

/// What a slot's tuple has besides its cells.
#[derive(Clone, Copy)]
pub struct Note {
    pub supports: u32,
    pub head: u32,
    pub marked: bool,
}

/// The parts of a table. Of a kind without heads, `links`, `keys` and `ends` stay empty.
#[derive(Drop)]
pub struct Raw {
    pub kind: Kind,
    pub key: SmallVec<usize, KEY>,
    pub rows: Arena,
    pub notes: Vec<Note>,
    pub links: Vec<Pair>,
    pub keys: Arena,
    pub ends: Vec<Ends>,
    pub marked: Option<u32>,
    pub cells: SmallVec<u64, KEY>,
}

/// The note of a slot.
pub fn note_of(notes: &Vec<Note>, slot: u32) -> Note
    requires { slot < length notes.now.items }
    ensures { result ≡ note_at notes.now.items slot }
{
    notes[slot as usize]
}

/// The place of a slot.
pub fn placed(slot: Option<u32>) -> Option<Place>
    ensures { result ≡ place_of slot }
{
    match slot {
        None => None,
        Some(slot) => Some(Place::new(slot)),
    }
}

/// Writes the note of a slot.
pub fn set_note(notes: &mut Vec<Note>, slot: u32, note: Note)
    requires { slot < length notes.old.items }
    ensures { notes.new.items ≡ slice_set notes.old.items slot note }
{
    notes[slot as usize] = note;
}
