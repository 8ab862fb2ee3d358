//! The rows that lines name, each once, with their copies.
ghost use Rattle.std.specs.Prelude.{◌≡◌, ◌++◌, [], ◌∷◌, ◌<◌, ◌≤◌, ◌+◌, ℕ, List, None, Some, length, filter};
ghost use Rattle.std.specs.Prelude.{slice_get, slice_index_or, IfOk, IfSome, OnErr, MatchOption, Contains};
ghost use Rattle.std.specs.List.{zip};
ghost use Rattle.djq_transaction.specs.Net.{IsNetTable, LooksUp, SetsCopies, keys, key_cells, is_new_in, no_entry};
ghost use Rattle.djq_arena.specs.declared.link.TheConstants.{SLOTS};
ghost use Rattle.djq_transaction.specs.declared.key.TheConstants.{KEY_CELLS};
ghost use Rattle.djq_transaction.specs.Net.{IsNet, copies_came, copies_went};
ghost use Rattle.djq_store_spec.specs.Lines.{first_lines, lines_come, lines_go};
ghost use Rattle.djq_transaction.specs.Applied.{headings};
ghost use Rattle.djq_transaction.specs.Net.{IsRowAt, relation_place};
ghost use Rattle.djq_store_spec.specs.Held as spec;
ghost use Rattle.djq_model.specs.declared.relation.Relation.{Relation};
ghost use Rattle.djq_model.specs.Data.{Bytes};

use crate::key::Key;
use crate::keys::Keys;
use djq_counters::Tally;
use djq_database::{Catalog, RelationId};
use djq_index::Cells;
use djq_model::NoMem;
use std::alloc::Global;
use std::sync::ledger::Ledger;

/// The copies of a row, before lines and after them.
#[derive(Clone, Copy, Debug)]
pub struct Copies {
    /// How many there were.
    pub before: u32,
    /// How many there are.
    pub after: u32,
}

impl Copies {
    /// Whether the row is inserted: it had no copy, and has one.
    pub fn came(&self) -> bool
        ensures { result ≡ copies_came self.now }
    {
        self.before == 0 && 0 < self.after
    }

    /// Whether the row is removed: it had a copy, and has none.
    pub fn went(&self) -> bool
        ensures { result ≡ copies_went self.now }
    {
        0 < self.before && self.after == 0
    }
}

/// The rows that lines name, each once, in the order in which they are first named. A row is found by its key: the
/// place of its relation, its cells, and zeros up to the width of all keys.
#[derive(Drop)]
pub struct Net {
    /// The keys. Each lies in the slot of its place among the rows.
    pub keys: Keys,
    /// The copies of the row in each slot.
    pub copies: Vec<Copies>,
}

impl Net {
    /// No row yet, with keys of this many cells. It asks for no memory.
    pub(crate) fn new(alloc: Global, width: usize) -> Net
        ensures table { IsNetTable width result }
        ensures empty { keys result ≡ [] }
        ensures bare { result.copies.items ≡ [] }
    {
        Net {
            keys: Keys::new(alloc, width),
            copies: Vec::new(alloc),
        }
    }

    /// The place of a key; none if and only if it isn't there.
    pub(crate) fn find(&self, width: usize, key: &[u64]) -> Option<usize>
        requires { IsNetTable width self.now }
        ensures { MatchOption result (Contains (keys self.now) key.now → ⊥)
            (λ at. slice_get (keys self.now) at ≡ Some key.now) }
    {
        match self.keys.find(key) {
            Some(slot) => Some(slot as usize),
            None => None,
        }
    }

    /// The key at a place.
    pub fn key(&self, width: usize, place: usize) -> &[u64]
        requires table { IsNetTable width self.now }
        requires within { place < length (keys self.now) }
        ensures key { slice_get (keys self.now) place ≡ Some result.now }
        ensures wide { length result.now ≡ width }
    {
        self.keys.laws();
        self.keys.cells(place as u32)
    }

    /// The row at a place: its relation, and its cells, which are as many as the relation has columns.
    pub(crate) fn row(&self, catalog: &Catalog, place: usize) -> (RelationId, Cells)
        requires net { (relations : List Relation) × (lines : List spec.HeldLine)
            × IsNet relations catalog.now.texts self.now.keys.width lines self.now
            × (headings catalog.now.relations ≡ headings relations) }
        requires within { place < length self.now.copies.items }
        ensures row { (relations : List Relation) (lines : List spec.HeldLine) (h : spec.HeldLine)
            → IsNet relations catalog.now.texts self.now.keys.width lines self.now
            → headings catalog.now.relations ≡ headings relations → slice_get (first_lines lines) place ≡ Some h
            → IsRowAt catalog.now h result.0.at result.1 × (result.0.at ≡ relation_place relations h.relation) }
    {
        catalog.laws();
        let key = self.key(self.keys.width(), place);
        let relation = RelationId {
            at: key[0] as usize,
        };
        let columns = catalog.columns(relation).len();
        (relation, Cells::from_slice(&key[1..1 + columns]))
    }

    /// Whether the row at a place is of a relation that didn't have it before.
    fn is_new(&self, width: usize, place: usize, relation: usize) -> bool
        requires table { IsNetTable width self.now }
        requires some { 0 < width }
        requires within { place < length (keys self.now) }
        ensures { result ≡ is_new_in relation
            (slice_index_or (zip (keys self.now) self.now.copies.items) place no_entry) }
    {
        self.key(width, place)[0] == relation as u64 && self.copies[place].before == 0
    }

    /// How many rows of a relation there are that it didn't have before.
    pub(crate) fn count_new(&self, width: usize, relation: usize) -> usize
        requires table { IsNetTable width self.now }
        requires some { 0 < width }
        ensures { result ≡ length (filter (is_new_in relation) (zip (keys self.now) self.now.copies.items)) }
    {
        let mut count = 0;
        for place in 0..self.copies.len() {
            if self.is_new(width, place, relation) {
                count += 1;
            }
        }
        count
    }

    /// How many rows are inserted.
    pub fn count_came(&self) -> usize
        ensures { (relations : List Relation) (texts : List Bytes) (width : ℕ) (lines : List spec.HeldLine)
            → IsNet relations texts width lines self.now → result ≡ length (lines_come relations lines) }
    {
        let mut count = 0;
        for place in 0..self.copies.len() {
            if self.copies[place].came() {
                count += 1;
            }
        }
        count
    }

    /// How many rows are removed.
    pub fn count_went(&self) -> usize
        ensures { (relations : List Relation) (texts : List Bytes) (width : ℕ) (lines : List spec.HeldLine)
            → IsNet relations texts width lines self.now → result ≡ length (lines_go relations lines) }
    {
        let mut count = 0;
        for place in 0..self.copies.len() {
            if self.copies[place].went() {
                count += 1;
            }
        }
        count
    }

    /// Sets the copies of a key that was looked up. A key without a place gets one after the others.
    ///
    /// # Errors
    ///
    /// `NoMem` out of memory: only if it has no place.
    pub(crate) fn set(
        &mut self,
        width: usize,
        key: &[u64],
        place: Option<usize>,
        copies: Copies,
    ) -> Result<(), NoMem>
        requires table { IsNetTable width self.old }
        requires wide { length key.now ≡ width }
        requires few { length (keys self.old) < SLOTS }
        requires within { IfSome place (λ p. p < length (keys self.old)) }
        ensures ok { IfOk result (λ _. SetsCopies width key.now self.old place copies self.new) }
        ensures err { OnErr result (place ≡ None) }
    {
        if let Some(at) = place {
            self.copies[at] = copies;
            return Ok(());
        }
        let _slot = self.keys.push(key)?;
        self.keys.laws();
        self.copies.push(copies)?;
        Ok(())
    }
}

/// The row of these cells, in the relation at a place: its place among the rows, if it has one, and its copies.
/// Its key is written.
pub(crate) fn look_up<L: Ledger>(
    catalog: &Catalog,
    net: &Net,
    width: usize,
    id: RelationId,
    cells: &[u64],
    key: &mut Key,
    tally: &mut Tally<L>,
) -> (Option<usize>, Copies)
    requires table { IsNetTable width net.now }
    requires wide { 1 + length cells.now ≤ width }
    requires narrow { width ≤ KEY_CELLS }
    requires below { id.at < length catalog.now.relations }
    ensures found { LooksUp catalog.now id.at cells.now width net.now result.0 result.1 }
    ensures key { key.new ≡ key_cells width id.at cells.now }
{
    key.write(width, id.at, cells);
    if let Some(place) = net.find(width, key.as_slice()) {
        return (Some(place), net.copies[place]);
    }
    let before = catalog.copies(id, cells, tally);
    (
        None,
        Copies {
            before,
            after: before,
        },
    )
}
