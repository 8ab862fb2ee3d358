//! Unions that are put into slots.
ghost use Rattle.std.specs.Prelude.{◌≡◌, ◌≤◌, ◌<◌, count_by, is_none, is_some, position, length, IfOk, OnErr};
ghost use Rattle.djq_protocol.specs.declared.limits.TheConstants.{QUERIES};
ghost use Rattle.djq_store.specs.Filling.{FillsSlot};

use crate::joined::Joined;
use djq_model::NoMem;

/// A slot without a union.
fn vacant_slot(unions: &[Option<Joined>]) -> Option<usize>
    ensures { result ≡ position is_none unions.now }
{
    unions.iter().position(|slot| slot.is_none())
}

/// Puts a union into a vacant slot, and returns its number.
///
/// # Errors
///
/// `NoMem` out of memory. Nothing has changed.
pub fn fill_slot(unions: &mut Vec<Option<Joined>>, joined: Joined) -> Result<usize, NoMem>
    requires few { count_by is_some unions.old.items < QUERIES }
    requires within { length unions.old.items ≤ QUERIES }
    ensures ok { IfOk result (λ k. FillsSlot unions.old.items unions.new.items k joined) }
    ensures err { OnErr result (unions.new.items ≡ unions.old.items) }
{
    if let Some(slot) = vacant_slot(unions.as_slice()) {
        unions[slot] = Some(joined);
        return Ok(slot);
    }
    let slot = unions.len();
    unions.reserve(1)?;
    unions.push_reserved(Some(joined));
    Ok(slot)
}
