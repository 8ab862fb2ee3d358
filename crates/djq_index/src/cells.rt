ghost use Rattle.std.specs.Prelude.{◌≡◌, ◌≤◌, ◌<◌, [], ◌∷◌, ◌++◌, length, replicate, slice_set};
ghost use Rattle.djq_index.specs.Tuple.{pick};
ghost use Rattle.djq_index.specs.Table.{AreColumns};

use std::marker::Model;

/// How many cells there is room for: those of a row of the most columns, and of an answer of the
/// most variables of a head.
pub const CELLS: usize = 16;

/// The cells of a tuple, which are inline, so that they need no allocation.
#[derive(Debug, Drop)]
pub struct Cells {
    cells: [u64; CELLS],
    len: usize,
}

impl Model for Cells {
    ghost use Rattle.std.specs.Prelude.{List, ℕ};

    ghost Value = { List ℕ };

    ghost use Rattle.std.specs.Prelude.{◌≤◌, take};
    ghost use Rattle.djq_index.specs.declared.cells.TheConstants.{CELLS};

    ghost view = { λ a. take a.len a.cells };

    ghost invariant = { λ a. a.len ≤ CELLS };
}

impl Default for Cells {
    ghost use Rattle.std.specs.Prelude.{◌≡◌, []};

    ghost is_default = { λ c. c ≡ [] };

    /// No cell.
    fn default() -> Cells {
        Cells::new(0)
    }
}

/// Copies a tuple's cells. Tuples are short, so that a loop costs less than a call.
fn copy_cells(into: &mut [u64], from: &[u64])
    requires { length into.old ≡ length from.now }
    ensures { into.new ≡ from.now }
{
    for at in 0..from.len() {
        into[at] = from[at];
    }
}

impl Cells {
    /// This many cells, all zero.
    pub fn new(len: usize) -> Cells
        requires { len ≤ CELLS }
        ensures { result ≡ replicate len 0 }
    {
        Cells {
            cells: [0; CELLS],
            len,
        }
    }

    /// How many cells there are.
    pub fn len(&self) -> usize
        ensures { result ≡ length self.now }
    {
        self.len
    }

    /// The cells.
    pub fn as_slice(&self) -> &[u64]
        ensures { result.now ≡ self.now }
    {
        &self.cells[..self.len]
    }

    /// Writes one cell.
    pub fn set(&mut self, at: usize, cell: u64)
        requires { at < length self.old }
        ensures { self.new ≡ slice_set self.old at cell }
    {
        let len = self.len;
        self.cells[..len][at] = cell;
    }

    /// Appends a cell.
    pub fn push(&mut self, cell: u64)
        requires { length self.old < CELLS }
        ensures { self.new ≡ self.old ++ cell ∷ [] }
    {
        self.cells[self.len] = cell;
        self.len += 1;
    }

    /// The cells of a tuple.
    pub fn from_slice(tuple: &[u64]) -> Cells
        requires { length tuple.now ≤ CELLS }
        ensures { result ≡ tuple.now }
    {
        let mut cells = Cells::new(0);
        cells.take_all(tuple);
        cells
    }

    /// Replaces the cells by those of a tuple.
    pub fn take_all(&mut self, tuple: &[u64])
        requires { length tuple.now ≤ CELLS }
        ensures { self.new ≡ tuple.now }
    {
        copy_cells(&mut self.cells[..tuple.len()], tuple);
        self.len = tuple.len();
    }

    /// The same cells once more.
    pub fn copy(&self) -> Cells
        ensures { result ≡ self.now }
    {
        Cells {
            cells: self.cells,
            len: self.len,
        }
    }

    /// Replaces the cells by those of a tuple at these columns.
    pub fn take_part(&mut self, tuple: &[u64], columns: &[usize])
        requires few { length columns.now ≤ CELLS }
        requires small { length tuple.now ≤ CELLS }
        requires within { AreColumns (length tuple.now) columns.now }
        ensures { self.new ≡ pick columns.now tuple.now }
    {
        self.clear();
        for column in columns {
            self.push(tuple[*column]);
        }
    }

    /// Removes all cells.
    pub fn clear(&mut self)
        ensures { self.new ≡ [] }
    {
        self.len = 0;
    }
}
