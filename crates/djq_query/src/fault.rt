ghost use Rattle.std.specs.Prelude.{◌≡◌};
ghost use Rattle.djq_protocol.specs.QueryFault.{query_fault, is_too_large};

use crate::compared::{compares_unbound, has_miscompared};
use crate::places::{has_clash, has_misfit, has_wrong_arity, reads_unknown};
use crate::relations::Relations;
use crate::variables::{are_different, has_many, has_unbound};
use djq_model::Query;
use djq_protocol::Refusal;
use djq_protocol::limits::{ATOMS, COMPARISONS, HEAD_VARIABLES};

/// Why a query can't be asked over relations: the first of these that holds, and none if none does. It
/// needs no memory.
///
/// | refusal | an atom, a term, a comparison or the head |
/// |---|---|
/// | `NoRelation` | an atom's relation isn't there |
/// | `Arity` | an atom has another number of terms than its relation has columns |
/// | `WrongType` | a constant is of another type than its column |
/// | `VariableType` | a variable is at columns of two types |
/// | `Unbound` | the variable of a comparison occurs in no atom |
/// | `WrongType` | a comparison's constant is of another type than its variable, or it orders a text |
/// | `HeadRepeated` | a variable occurs in the head twice |
/// | `HeadUnbound` | a variable of the head occurs in no atom |
/// | `Limit` | there are too many atoms, variables, head variables or comparisons |
pub fn query_fault<R: Relations>(relations: &R, query: &Query) -> Option<Refusal>
    ensures { result ≡ query_fault (R.relations relations.now) query.now }
{
    let atoms = query.atoms.as_slice();
    if reads_unknown(relations, atoms) {
        return Some(Refusal::NoRelation);
    }
    if has_wrong_arity(relations, atoms) {
        return Some(Refusal::Arity);
    }
    if has_misfit(relations, atoms) {
        return Some(Refusal::WrongType);
    }
    if has_clash(relations, atoms) {
        return Some(Refusal::VariableType);
    }
    let comparisons = query.comparisons.as_slice();
    if compares_unbound(atoms, comparisons) {
        return Some(Refusal::Unbound);
    }
    if has_miscompared(relations, atoms, comparisons) {
        return Some(Refusal::WrongType);
    }
    let head = query.head.as_slice();
    if !are_different(head) {
        return Some(Refusal::HeadRepeated);
    }
    if has_unbound(atoms, head) {
        return Some(Refusal::HeadUnbound);
    }
    if is_too_large(query) {
        return Some(Refusal::Limit);
    }
    None
}

/// Whether a query has too many atoms, variables, head variables or comparisons.
fn is_too_large(query: &Query) -> bool
    ensures { result ≡ is_too_large query.now }
{
    query.atoms.len() > ATOMS
        || has_many(query.atoms.as_slice())
        || query.head.len() > HEAD_VARIABLES
        || query.comparisons.len() > COMPARISONS
}
