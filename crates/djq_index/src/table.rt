ghost use Rattle.std.specs.Prelude.{◌≡◌, ℕ, ◌+◌, ◌-◌, ◌<◌, ◌≤◌, ◌==◌, false, List, [], ◌∷◌, ◌++◌};
ghost use Rattle.std.specs.Prelude.{length, IfOk, OnErr, MatchOption};
ghost use Rattle.djq_index.specs.Entries.{Entry, supports_of, count_of, group_of, marks, is_marked};
ghost use Rattle.djq_index.specs.Entries.{unmarked, head_at, last_at};
ghost use Rattle.djq_index.specs.Table.{IsTable, IsAt, IsOccupied, IsUnmarked, IsRaisable, IsLowerable, AreColumns};
ghost use Rattle.djq_index.specs.Changes.{Inserted, InsertedAs, Removed, Touched, Supported};

use crate::insertion::{insert_bare, insert_keyed};
use crate::kind::{Kind, kind_of};
use crate::marking::{touch_bare, touch_keyed, unmark_all};
use crate::place::Place;
use crate::raw::{Note, Raw, note_of, placed, set_note};
use crate::removing::{remove_bare, remove_keyed};
use crate::walk::{ends_in, newest, oldest};
use djq_arena::{Arena, pair_of};
use djq_counters::Tally;
use smallvec::SmallVec;
use std::alloc::{AllocError, Global};
use std::marker::Model;
use std::sync::ledger::Ledger;

/// The most tuples of a table.
pub const TUPLES: usize = 4_294_967_295;

/// The most supports of a tuple.
pub const SUPPORTS: usize = 4_294_967_295;

/// Different tuples of one width, in groups by the cells of their key.
///
/// A group is a list: a new tuple is its last, and so is a touched one. Both are marked until
/// the marks are cleared, so the marked ones of a group are its last. With an empty key, and with one
/// of all columns in their order, groups use no memory of their own.
#[derive(Drop)]
pub struct Table {
    raw: Raw,
}

impl Model for Table {
    ghost use Rattle.djq_index.specs.Table as spec;

    ghost Value = { spec.Table };

    ghost use Rattle.djq_index.specs.Raw.{entries_of, IsRaw};

    ghost view = { λ t. record { width = t.raw.rows.width; key = t.raw.key.items; entries = entries_of t.raw } };

    ghost invariant = { λ t. IsRaw t.raw };
}

#[tactic(auto, using(crate::proofs::Tables::raw_table))]
impl Table {
    /// An empty table of tuples of this width, in groups by the cells at these columns. It fails only
    /// out of memory.
    pub fn new(alloc: Global, width: usize, key: &[usize]) -> Result<Table, AllocError>
        requires { AreColumns width key.now }
        ensures { IfOk result (λ t. t ≡ record { width = width; key = key.now; entries = [] }) }
    {
        let columns = SmallVec::from_slice(alloc, key)?;
        let rows = Arena::new(alloc, width)?;
        rows.laws();
        let keys = Arena::new(alloc, key.len())?;
        keys.laws();
        let raw = Raw {
            kind: kind_of(width, key),
            key: columns,
            rows,
            notes: Vec::new(alloc),
            links: Vec::new(alloc),
            keys,
            ends: Vec::new(alloc),
            marked: None,
            cells: SmallVec::new(alloc),
        };
        Ok(Table { raw })
    }

    /// What holds of every table. It does nothing.
    pub fn laws(&self)
        ensures { IsTable self.now }
    {
        let _ = &self.raw;
    }

    /// The law that a table has at most [`TUPLES`] tuples. It does nothing.
    pub fn is_small(&self)
        ensures { length self.now.entries ≤ TUPLES }
    {
        let _ = &self.raw;
    }

    /// How many tuples there are.
    pub fn len(&self) -> usize
        ensures { result ≡ length self.now.entries }
    {
        self.raw.rows.len()
    }

    /// Whether there is no tuple.
    pub fn is_empty(&self) -> bool
        ensures { result ≡ (length self.now.entries == 0) }
    {
        self.len() == 0
    }

    /// How many cells each tuple has.
    pub fn width(&self) -> usize
        ensures { result ≡ self.now.width }
    {
        self.raw.rows.width()
    }

    /// The columns of the key.
    pub fn key(&self) -> &[usize]
        ensures { result.now ≡ self.now.key }
    {
        self.raw.key.as_slice()
    }

    /// The place of this tuple; none if it is absent. It counts one lookup.
    pub fn find<L: Ledger>(&self, tuple: &[u64], tally: &mut Tally<L>) -> Option<Place>
        ensures found { MatchOption result (count_of self.now.entries tuple.now ≡ 0)
            (λ p. IsAt self.now.entries p tuple.now) }
        ensures counted { tally.new ≡ tally.old + 1 }
    {
        tally.lookup();
        match self.raw.rows.find(tuple) {
            None => None,
            Some(slot) => Some(Place::new(slot)),
        }
    }

    /// The first of the group with these cells; none if there is no such group. It counts
    /// one lookup, as `last` does.
    pub fn first<L: Ledger>(&self, cells: &[u64], tally: &mut Tally<L>) -> Option<Place>
        ensures found { result ≡ head_at (group_of self.now.key self.now.entries cells.now) }
        ensures counted { tally.new ≡ tally.old + 1 }
    {
        tally.lookup();
        match self.raw.kind {
            Kind::One => placed(oldest(&self.raw.rows, cells)),
            Kind::Keyed => placed(ends_in(&self.raw, cells).first.get()),
            Kind::Each => placed(self.raw.rows.find(cells)),
        }
    }

    /// The last of the group with these cells.
    pub fn last<L: Ledger>(&self, cells: &[u64], tally: &mut Tally<L>) -> Option<Place>
        ensures found { result ≡ last_at (group_of self.now.key self.now.entries cells.now) }
        ensures counted { tally.new ≡ tally.old + 1 }
    {
        tally.lookup();
        match self.raw.kind {
            Kind::One => placed(newest(&self.raw.rows, cells)),
            Kind::Keyed => placed(ends_in(&self.raw, cells).last.get()),
            Kind::Each => placed(self.raw.rows.find(cells)),
        }
    }

    /// The next one of its group; none at the group's end. It counts one link, as `prev` does.
    pub fn next<L: Ledger>(&self, place: Place, tally: &mut Tally<L>) -> Option<Place>
        requires { IsOccupied self.now.entries place }
        ensures found { (w : List ℕ) (xs : List Entry) (e : Entry) (ys : List Entry)
            → group_of self.now.key self.now.entries w ≡ xs ++ e ∷ ys → e.at ≡ place
            → result ≡ head_at ys }
        ensures counted { tally.new ≡ tally.old + 1 }
    {
        tally.link();
        let slot = place.slot();
        match self.raw.kind {
            Kind::One => placed(self.raw.rows.next(slot)),
            Kind::Keyed => placed(pair_of(&self.raw.links, slot).next.get()),
            Kind::Each => None,
        }
    }

    /// The one before it in its group; none at the group's start.
    pub fn prev<L: Ledger>(&self, place: Place, tally: &mut Tally<L>) -> Option<Place>
        requires { IsOccupied self.now.entries place }
        ensures found { (w : List ℕ) (xs : List Entry) (e : Entry) (ys : List Entry)
            → group_of self.now.key self.now.entries w ≡ xs ++ e ∷ ys → e.at ≡ place
            → result ≡ last_at xs }
        ensures counted { tally.new ≡ tally.old + 1 }
    {
        tally.link();
        let slot = place.slot();
        match self.raw.kind {
            Kind::One => placed(self.raw.rows.prev(slot)),
            Kind::Keyed => placed(pair_of(&self.raw.links, slot).prev.get()),
            Kind::Each => None,
        }
    }

    /// The first marked tuple; none if there are no marks. It counts one link, as
    /// `next_marked` does.
    pub fn first_marked<L: Ledger>(&self, tally: &mut Tally<L>) -> Option<Place>
        ensures found { result ≡ head_at (marks self.now.entries) }
        ensures counted { tally.new ≡ tally.old + 1 }
    {
        tally.link();
        placed(self.raw.marked)
    }

    /// The next marked tuple after a marked one; none after the last.
    pub fn next_marked<L: Ledger>(&self, place: Place, tally: &mut Tally<L>) -> Option<Place>
        requires { IsOccupied self.now.entries place }
        ensures found { (xs : List Entry) (e : Entry) (ys : List Entry) → marks self.now.entries
            ≡ xs ++ e ∷ ys → e.at ≡ place → result ≡ head_at ys }
        ensures counted { tally.new ≡ tally.old + 1 }
    {
        tally.link();
        placed(self.raw.rows.next(place.slot()))
    }

    /// The tuple at a place.
    pub fn tuple(&self, place: Place) -> &[u64]
        requires { IsOccupied self.now.entries place }
        ensures { (u : List ℕ) → IsAt self.now.entries place u → result.now ≡ u }
    {
        self.raw.rows.cells(place.slot())
    }

    /// How many supports the tuple at a place has.
    pub fn supports(&self, place: Place) -> u32
        requires { IsOccupied self.now.entries place }
        ensures { (u : List ℕ) → IsAt self.now.entries place u → result ≡ supports_of self.now.entries u }
    {
        note_of(&self.raw.notes, place.slot()).supports
    }

    /// Whether the tuple at a place is marked.
    pub fn marked(&self, place: Place) -> bool
        requires { IsOccupied self.now.entries place }
        ensures { (u : List ℕ) → IsAt self.now.entries place u → result ≡ is_marked self.now.entries u }
    {
        note_of(&self.raw.notes, place.slot()).marked
    }

    /// Inserts a new tuple: last in its group, marked, with one support. Out of memory, nothing
    /// changes. It counts one edit, as all calls below do.
    pub fn insert<L: Ledger>(
        &mut self,
        tuple: &[u64],
        tally: &mut Tally<L>,
    ) -> Result<Place, AllocError>
        requires absent { count_of self.old.entries tuple.now ≡ 0 }
        requires wide { length tuple.now ≡ self.old.width }
        requires few { length self.old.entries < TUPLES }
        ensures inserted { IfOk result (λ p. Inserted self.old.key self.old.entries self.new.entries tuple.now) }
        ensures at { IfOk result (λ p. IsAt self.new.entries p tuple.now) }
        ensures refused { OnErr result (self.new.entries ≡ self.old.entries) }
        ensures key { self.new.key ≡ self.old.key }
        ensures width { self.new.width ≡ self.old.width }
        ensures counted { tally.new ≡ tally.old + 1 }
        ensures table { IsTable self.new }
    {
        self.insert_as(tuple, true, tally)
    }

    /// The same as `insert`, if the tuple is to be marked; else it is inserted unmarked, and no tuple
    /// may be marked.
    pub fn insert_as<L: Ledger>(
        &mut self,
        tuple: &[u64],
        marked: bool,
        tally: &mut Tally<L>,
    ) -> Result<Place, AllocError>
        requires absent { count_of self.old.entries tuple.now ≡ 0 }
        requires wide { length tuple.now ≡ self.old.width }
        requires few { length self.old.entries < TUPLES }
        requires plain { marked ≡ false → marks self.old.entries ≡ [] }
        ensures inserted { IfOk result (λ p. InsertedAs marked self.old.key self.old.entries
            self.new.entries tuple.now) }
        ensures at { IfOk result (λ p. IsAt self.new.entries p tuple.now) }
        ensures refused { OnErr result (self.new.entries ≡ self.old.entries) }
        ensures key { self.new.key ≡ self.old.key }
        ensures width { self.new.width ≡ self.old.width }
        ensures counted { tally.new ≡ tally.old + 1 }
        ensures table { IsTable self.new }
    {
        tally.edit();
        match self.raw.kind {
            Kind::Keyed => insert_keyed(&mut self.raw, tuple, marked),
            _ => insert_bare(&mut self.raw, tuple, marked),
        }
    }

    /// Removes the tuple at a place. Other places stay valid.
    pub fn remove<L: Ledger>(&mut self, place: Place, tally: &mut Tally<L>)
        requires { IsOccupied self.old.entries place }
        ensures removed { (u : List ℕ) → IsAt self.old.entries place u → Removed self.old.entries self.new.entries u }
        ensures key { self.new.key ≡ self.old.key }
        ensures width { self.new.width ≡ self.old.width }
        ensures counted { tally.new ≡ tally.old + 1 }
        ensures table { IsTable self.new }
    {
        tally.edit();
        match self.raw.kind {
            Kind::Keyed => remove_keyed(&mut self.raw, place),
            _ => remove_bare(&mut self.raw, place),
        }
    }

    /// Marks the unmarked tuple at a place, and moves it to the end of its group.
    pub fn touch<L: Ledger>(&mut self, place: Place, tally: &mut Tally<L>)
        requires { IsUnmarked self.old.entries place }
        ensures touched { (u : List ℕ) → IsAt self.old.entries place u
            → Touched self.old.key self.old.entries self.new.entries u }
        ensures key { self.new.key ≡ self.old.key }
        ensures width { self.new.width ≡ self.old.width }
        ensures counted { tally.new ≡ tally.old + 1 }
        ensures table { IsTable self.new }
    {
        tally.edit();
        match self.raw.kind {
            Kind::Keyed => touch_keyed(&mut self.raw, place),
            _ => touch_bare(&mut self.raw, place),
        }
    }

    /// Clears all marks. It counts a link for each mark besides.
    pub fn clear_marks<L: Ledger>(&mut self, tally: &mut Tally<L>)
        ensures cleared { self.new.entries ≡ unmarked self.old.entries }
        ensures key { self.new.key ≡ self.old.key }
        ensures width { self.new.width ≡ self.old.width }
        ensures counted { tally.new ≡ tally.old + 1 + length (marks self.old.entries) }
        ensures table { IsTable self.new }
    {
        tally.edit();
        unmark_all(&mut self.raw.notes, &self.raw.rows, self.raw.marked, tally);
        self.raw.marked = None;
    }

    /// Gives the tuple at a place one support more.
    pub fn raise<L: Ledger>(&mut self, place: Place, tally: &mut Tally<L>)
        requires { IsRaisable self.old.entries place }
        ensures raised { (u : List ℕ) → IsAt self.old.entries place u
            → Supported self.old.entries self.new.entries u (supports_of self.old.entries u)
            (supports_of self.old.entries u + 1) }
        ensures key { self.new.key ≡ self.old.key }
        ensures width { self.new.width ≡ self.old.width }
        ensures counted { tally.new ≡ tally.old + 1 }
        ensures table { IsTable self.new }
    {
        tally.edit();
        let slot = place.slot();
        let note = note_of(&self.raw.notes, slot);
        let raised = Note {
            supports: note.supports + 1,
            head: note.head,
            marked: note.marked,
        };
        set_note(&mut self.raw.notes, slot, raised);
    }

    /// Removes one support of the tuple at a place.
    pub fn lower<L: Ledger>(&mut self, place: Place, tally: &mut Tally<L>)
        requires { IsLowerable self.old.entries place }
        ensures lowered { (u : List ℕ) → IsAt self.old.entries place u
            → Supported self.old.entries self.new.entries u (supports_of self.old.entries u)
            (supports_of self.old.entries u - 1) }
        ensures key { self.new.key ≡ self.old.key }
        ensures width { self.new.width ≡ self.old.width }
        ensures counted { tally.new ≡ tally.old + 1 }
        ensures table { IsTable self.new }
    {
        tally.edit();
        let slot = place.slot();
        let note = note_of(&self.raw.notes, slot);
        let lowered = Note {
            supports: note.supports - 1,
            head: note.head,
            marked: note.marked,
        };
        set_note(&mut self.raw.notes, slot, lowered);
    }
}
