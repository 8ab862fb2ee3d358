//! One line of a delta, as it is packed: its sign, and the place of its cells.
ghost use Rattle.std.specs.Prelude.{◌≡◌, ◌↔◌, IsTrue, take, drop};

/// The sign of a line, and the place of its first cell. It has the size of one cell.
#[derive(Clone, Copy, Debug)]
pub struct Place {
    pub at: u32,
    pub came: bool,
}

/// So many cells from a place on, as far as there are some.
pub fn cells_of(cells: &[u64], width: usize, place: Place) -> &[u64]
    ensures { result.now ≡ take width (drop place.at cells.now) }
{
    let from = (place.at as usize).min(cells.len());
    let rest = &cells[from..];
    &rest[..width.min(rest.len())]
}

/// Whether two lines are of the same answer.
pub fn have_same_cells(cells: &[u64], width: usize, one: Place, other: Place) -> bool
    ensures { IsTrue result ↔ (take width (drop one.at cells.now) ≡ take width (drop other.at cells.now)) }
{
    cells_of(cells, width, one) == cells_of(cells, width, other)
}
