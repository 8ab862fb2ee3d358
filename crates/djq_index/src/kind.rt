ghost use Rattle.std.specs.Prelude.{◌≡◌, ◌↔◌, IsTrue, length};
ghost use Rattle.djq_index.specs.Raw.{IsKind, KeyIsWhole};

/// How a table's groups are found.
#[derive(Clone, Copy)]
pub enum Kind {
    /// The key has no columns: all tuples are one group, in the order of the rows.
    One,
    /// Each group has a head.
    Keyed,
    /// The key is all columns, in their order: each tuple is a group of its own.
    Each,
}

/// Whether a key is all columns, in their order.
fn is_whole(width: usize, key: &[usize]) -> bool
    ensures { IsTrue result → KeyIsWhole width key.now }
{
    if key.len() != width {
        return false;
    }
    for (i, column) in key.iter().enumerate() {
        if *column != i {
            return false;
        }
    }
    true
}

/// The kind of groups by these columns.
pub fn kind_of(width: usize, key: &[usize]) -> Kind
    ensures { IsKind result width key.now }
{
    if key.is_empty() {
        return Kind::One;
    }
    if is_whole(width, key) {
        Kind::Each
    } else {
        Kind::Keyed
    }
}
