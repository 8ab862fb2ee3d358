ghost use Rattle.std.specs.Prelude.{◌≡◌, ◌≢◌, [], None};
ghost use Rattle.djq_arena.specs.Chains.{first_of, last_of};
ghost use Rattle.djq_arena.specs.Rows.{slots};
ghost use Rattle.djq_arena.specs.Store.{ends_of};
ghost use Rattle.djq_index.specs.Entries.{group_of};
ghost use Rattle.djq_index.specs.Raw.{HoldsTuples, AreHeads, entries_of, slots_at};

use crate::heads::{known_ends, none};
use crate::raw::Raw;
use djq_arena::{Arena, Ends};

/// The ends of the group with these cells, as its head knows them.
pub fn ends_in(raw: &Raw, cells: &[u64]) -> Ends
    requires raw { HoldsTuples raw.now }
    requires heads { AreHeads raw.now }
    ensures { result ≡ ends_of (slots_at (group_of raw.now.key.items (entries_of raw.now) cells.now)) }
{
    match raw.keys.find(cells) {
        None => none(),
        Some(head) => known_ends(&raw.ends, head),
    }
}

/// The oldest row, if there are no cells to find it by.
pub fn oldest(rows: &Arena, cells: &[u64]) -> Option<u32>
    ensures here { cells.now ≡ [] → result ≡ first_of (slots rows.now.rows) }
    ensures elsewhere { cells.now ≢ [] → result ≡ None }
{
    if cells.is_empty() { rows.first() } else { None }
}

/// The newest row, if there are no cells to find it by.
pub fn newest(rows: &Arena, cells: &[u64]) -> Option<u32>
    ensures here { cells.now ≡ [] → result ≡ last_of (slots rows.now.rows) }
    ensures elsewhere { cells.now ≢ [] → result ≡ None }
{
    if cells.is_empty() { rows.last() } else { None }
}
