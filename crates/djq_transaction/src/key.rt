//! The key of a row: the place of its relation, its cells, and zeros.
ghost use Rattle.std.specs.Prelude.{◌≡◌, ◌+◌, ◌≤◌, length};
ghost use Rattle.djq_transaction.specs.Net.{key_cells};

use std::marker::Model;

/// The most cells of a key: the place of a relation, and the cells of a row of the most columns.
pub(crate) const KEY_CELLS: usize = 17;

/// A key, which lies inline, so that it needs no memory.
#[derive(Drop)]
pub(crate) struct Key {
    cells: [u64; KEY_CELLS],
    width: usize,
}

impl Model for Key {
    ghost use Rattle.std.specs.Prelude.{List, ℕ};

    ghost Value = { List ℕ };

    ghost use Rattle.std.specs.Prelude.{◌≤◌, take};
    ghost use Rattle.djq_transaction.specs.declared.key.TheConstants.{KEY_CELLS};

    ghost view = { λ k. take k.width k.cells };

    ghost invariant = { λ k. k.width ≤ KEY_CELLS };
}

impl Key {
    /// A key of no cells.
    pub(crate) fn new() -> Key {
        Key {
            cells: [0; KEY_CELLS],
            width: 0,
        }
    }

    /// Writes the key of a row of the relation at a place, by its cells, in this many cells.
    pub(crate) fn write(&mut self, width: usize, place: usize, row: &[u64])
        requires wide { 1 + length row.now ≤ width }
        requires narrow { width ≤ KEY_CELLS }
        ensures { self.new ≡ key_cells width place row.now }
    {
        self.cells = [0; KEY_CELLS];
        self.cells[0] = place as u64;
        self.cells[1..1 + row.len()].copy_from_slice(row);
        self.width = width;
    }

    /// Its cells.
    pub(crate) fn as_slice(&self) -> &[u64]
        ensures { result.now ≡ self.now }
    {
        &self.cells[..self.width]
    }
}
