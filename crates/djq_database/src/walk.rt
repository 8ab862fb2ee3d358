ghost use Rattle.std.specs.Prelude.{◌≡◌, ◌+◌, ◌≤◌, length};
ghost use Rattle.djq_database.specs.Parts.{tuples_of};
ghost use Rattle.djq_database.specs.Walking.{TellsRow};

use crate::rows::Rows;
use djq_counters::Tally;
use std::marker::Model;
use std::sync::ledger::Ledger;

/// A walk over the rows of a relation. Contracts see the cells of the rows that are left.
#[derive(Drop)]
pub struct Walk<'a> {
    rows: &'a Rows,
    next: Option<u32>,
    left: usize,
}

impl<'a> Model for Walk<'a> {
    ghost use Rattle.std.specs.Prelude.{List, ℕ};

    ghost Value = { List (List ℕ) };

    ghost use Rattle.djq_database.specs.Walking.{tuples_left, IsWalk};

    ghost view = { λ w. tuples_left w.rows.now w.left };

    ghost invariant = { λ w. IsWalk w.rows.now w.next w.left };
}

impl<'a> Walk<'a> {
    /// A walk over all of these rows. It counts one lookup.
    pub(crate) fn new<L: Ledger>(rows: &'a Rows, tally: &mut Tally<L>) -> Walk<'a>
        ensures rest { result ≡ tuples_of rows.now.entries }
        ensures counted { tally.new ≡ tally.old + 1 }
    {
        let next = rows.first(tally);
        Walk {
            rows,
            next,
            left: rows.len(),
        }
    }

    /// How many rows are left.
    pub fn len(&self) -> usize
        ensures { result ≡ length self.now }
    {
        self.left
    }

    /// The cells of the next row; none if no row is left. It needs no memory, and counts
    /// one link for each row.
    pub fn next<L: Ledger>(&mut self, tally: &mut Tally<L>) -> Option<&'a [u64]>
        ensures tells { TellsRow self.old result self.new }
        ensures counted { tally.new ≤ tally.old + 1 }
    {
        match self.next {
            None => None,
            Some(slot) => {
                let cells = self.rows.cells(slot);
                self.next = self.rows.next(slot, tally);
                self.left -= 1;
                Some(cells)
            }
        }
    }
}
