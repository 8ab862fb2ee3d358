ghost use Rattle.std.specs.Prelude.{
  ◌≡◌,
  ◌≢◌,
  ◌⊎◌,
  ℕ,
  ◌+◌,
  ◌<◌,
  ◌≤◌,
  true,
  List,
  [],
  ◌∷◌,
  ◌++◌,
  length,
  vec_len,
  vec_capacity,
  IfOk,
  OnErr,
  MatchOption,
};
ghost use Rattle.djq_arena.specs.Store.{hash};
ghost use Rattle.djq_index.specs.Entries.{Entry, count_of, supports_of, head_at};
ghost use Rattle.djq_index.specs.Table.{TuplesDiffer, IsAt, IsOccupied};
ghost use Rattle.djq_index.specs.Changes.{Supported};
ghost use Rattle.djq_database.specs.Rows.{CopiesAreKept, copies_at, entries_with_copies, row_place, row_place_of};
ghost use Rattle.djq_database.specs.Tuples.{Appended, Dropped};
ghost use Rattle.djq_arena.specs.declared.link.TheConstants.{SLOTS};

use djq_arena::Arena;
use djq_counters::Tally;
use std::alloc::{AllocError, Global};
use std::marker::Model;
use std::sync::ledger::Ledger;

/// Different rows of one width, in cells and in order of insertion, each with its copies. A
/// row lies in a slot, whose number stays the same until the row is removed.
///
/// Contracts see them as entries of `djq_index`, whose supports are the copies.
#[derive(Drop)]
pub struct Rows {
    arena: Arena,
    copies: Vec<u32>,
}

impl Model for Rows {
    ghost use Rattle.djq_database.specs.Rows as spec;

    ghost Value = { spec.Rows };

    ghost use Rattle.djq_database.specs.Rows.{entries_with_copies, CopiesAreKept};

    ghost view = { λ r. record { width = r.arena.width; entries = entries_with_copies r.copies.items r.arena.rows } };

    ghost invariant = { λ r. CopiesAreKept r.arena r.copies.items };
}

impl Rows {
    /// No rows, of this width. It fails only out of memory.
    pub fn new(alloc: Global, width: usize) -> Result<Rows, AllocError>
        ensures { IfOk result (λ r. r ≡ record { width = width; entries = [] }) }
    {
        let arena = Arena::new(alloc, width)?;
        arena.laws();
        Ok(Rows {
            arena,
            copies: Vec::new(alloc),
        })
    }

    /// The law that no row occurs twice. It does nothing.
    pub fn laws(&self)
        ensures { TuplesDiffer self.now.entries }
    {
        let _ = &self.arena;
    }

    /// How many there are.
    pub fn len(&self) -> usize
        ensures { result ≡ length self.now.entries }
    {
        self.arena.len()
    }

    /// The slot of a row; none if it is absent. It counts one lookup.
    pub fn find<L: Ledger>(&self, cells: &[u64], tally: &mut Tally<L>) -> Option<u32>
        ensures found { MatchOption result (count_of self.now.entries cells.now ≡ 0)
            (λ slot. IsAt self.now.entries (row_place slot) cells.now) }
        ensures counted { tally.new ≡ tally.old + 1 }
    {
        tally.lookup();
        self.arena.find(cells)
    }

    /// The same as `find`, for cells whose hash is known.
    pub fn find_hashed<L: Ledger>(
        &self,
        cells: &[u64],
        code: u64,
        tally: &mut Tally<L>,
    ) -> Option<u32>
        requires { code ≡ hash cells.now }
        ensures found { MatchOption result (count_of self.now.entries cells.now ≡ 0)
            (λ slot. IsAt self.now.entries (row_place slot) cells.now) }
        ensures counted { tally.new ≡ tally.old + 1 }
    {
        tally.lookup();
        self.arena.find_hashed(cells, code)
    }

    /// The slot of the oldest row. It counts one lookup.
    pub fn first<L: Ledger>(&self, tally: &mut Tally<L>) -> Option<u32>
        ensures first { row_place_of result ≡ head_at self.now.entries }
        ensures counted { tally.new ≡ tally.old + 1 }
    {
        tally.lookup();
        self.arena.first()
    }

    /// The slot of the row inserted next after the one in a slot. It counts one link.
    pub fn next<L: Ledger>(&self, slot: u32, tally: &mut Tally<L>) -> Option<u32>
        requires { IsOccupied self.now.entries (row_place slot) }
        ensures next { (xs : List Entry) (e : Entry) (ys : List Entry) → self.now.entries ≡ xs ++ e ∷ ys
            → e.at ≡ row_place slot → row_place_of result ≡ head_at ys }
        ensures counted { tally.new ≡ tally.old + 1 }
    {
        tally.link();
        self.arena.next(slot)
    }

    /// The cells of the row in a slot.
    pub fn cells(&self, slot: u32) -> &[u64]
        requires { IsOccupied self.now.entries (row_place slot) }
        ensures { (u : List ℕ) → IsAt self.now.entries (row_place slot) u → result.now ≡ u }
    {
        self.arena.cells(slot)
    }

    /// How many copies of the row in a slot there are.
    pub fn copies(&self, slot: u32) -> u32
        requires { IsOccupied self.now.entries (row_place slot) }
        ensures { (u : List ℕ) → IsAt self.now.entries (row_place slot) u → result ≡ supports_of self.now.entries u }
    {
        self.copies[slot as usize]
    }

    /// Appends a row that isn't there, with this hash and one copy. Out of memory, nothing changes. It counts one
    /// edit, as both calls below do.
    pub fn push<L: Ledger>(
        &mut self,
        cells: &[u64],
        code: u64,
        tally: &mut Tally<L>,
    ) -> Result<(), AllocError>
        requires coded { code ≡ hash cells.now }
        requires absent { count_of self.old.entries cells.now ≡ 0 }
        requires wide { length cells.now ≡ self.old.width }
        requires few { length self.old.entries < SLOTS }
        ensures came { IfOk result (λ _. Appended self.old.entries self.new.entries cells.now) }
        ensures refused { OnErr result (self.new.entries ≡ self.old.entries) }
        ensures apart { TuplesDiffer self.new.entries }
        ensures width { self.new.width ≡ self.old.width }
        ensures counted { tally.new ≡ tally.old + 1 }
    {
        tally.edit();
        make_room(&mut self.copies, self.arena.is_full())?;
        let slot = self.arena.push_hashed(cells, code)?;
        self.arena.laws();
        count_one(&mut self.copies, slot);
        Ok(())
    }

    /// Removes the row in a slot. Other slots stay.
    pub fn remove<L: Ledger>(&mut self, slot: u32, tally: &mut Tally<L>)
        requires { IsOccupied self.old.entries (row_place slot) }
        ensures went { (u : List ℕ) → IsAt self.old.entries (row_place slot) u
            → Dropped self.old.entries self.new.entries u }
        ensures apart { TuplesDiffer self.new.entries }
        ensures width { self.new.width ≡ self.old.width }
        ensures counted { tally.new ≡ tally.old + 1 }
    {
        tally.edit();
        self.arena.remove(slot);
        self.arena.laws();
    }

    /// Gives the row in a slot another number of copies.
    pub fn recount<L: Ledger>(&mut self, slot: u32, copies: u32, tally: &mut Tally<L>)
        requires { IsOccupied self.old.entries (row_place slot) }
        ensures recounted { (u : List ℕ) → IsAt self.old.entries (row_place slot) u
            → Supported self.old.entries self.new.entries u (supports_of self.old.entries u) copies }
        ensures apart { TuplesDiffer self.new.entries }
        ensures width { self.new.width ≡ self.old.width }
        ensures counted { tally.new ≡ tally.old + 1 }
    {
        tally.edit();
        self.copies[slot as usize] = copies;
    }
}

/// Makes room for the copies of one more slot, if no slot is free.
fn make_room(copies: &mut Vec<u32>, full: bool) -> Result<(), AllocError>
    ensures room { IfOk result (λ _. full ≡ true → vec_len copies.new < vec_capacity copies.new) }
    ensures same { copies.new.items ≡ copies.old.items }
{
    if full && copies.len() == copies.capacity() {
        grow(copies)
    } else {
        Ok(())
    }
}

/// Room for the copies of one more slot. It is a function of its own, so that a row for which there is room saves fewer
/// registers.
#[inline(never)]
fn grow(copies: &mut Vec<u32>) -> Result<(), AllocError>
    ensures room { IfOk result (λ _. vec_len copies.new < vec_capacity copies.new) }
    ensures same { copies.new.items ≡ copies.old.items }
{
    copies.reserve(1)
}

/// Gives a slot one copy. There is room for one more slot if it is a new one.
fn count_one(copies: &mut Vec<u32>, slot: u32)
    requires slot { slot ≤ length copies.old.items }
    requires room { slot < length copies.old.items ⊎ vec_len copies.old < vec_capacity copies.old }
    ensures one { copies_at copies.new.items slot ≡ 1 }
    ensures others { (k : ℕ) → k ≢ slot → copies_at copies.new.items k ≡ copies_at copies.old.items k }
    ensures covered { slot < length copies.new.items }
    ensures longer { length copies.old.items ≤ length copies.new.items }
{
    if slot as usize == copies.len() {
        copies.push_reserved(1);
    } else {
        copies[slot as usize] = 1;
    }
}
