//! What is wrong with the comparisons of a body.
ghost use Rattle.std.specs.Prelude.{◌≡◌, not};
ghost use Rattle.std.specs.List.{list_any};
ghost use Rattle.djq_protocol.specs.QueryFault.{
  any_column,
  any_place,
  has_order as has_order_at,
  is_miscompared,
};
ghost use Rattle.djq_protocol.specs.Variables.{stands_in as stands_in_atoms};

use crate::relations::{Relations, columns_of};
use crate::variables::stands_in;
use djq_model::{Atom, ColumnType, Comparison, Operator, Term};

/// Whether an operator has a meaning at a column of this type.
fn has_order(operator: Operator, column: ColumnType) -> bool
    ensures { result ≡ has_order_at operator column }
{
    match (operator, column) {
        (Operator::Equal, _) => true,
        (Operator::NotEqual, _) => true,
        (_, ColumnType::Int) => true,
        (_, ColumnType::Text) => false,
    }
}

/// Whether a term is the comparison's variable at a column to whose type the comparison doesn't suit.
fn is_miscompared(comparison: &Comparison, term: &Term, column: ColumnType) -> bool
    ensures { result ≡ is_miscompared comparison.now term.now column }
{
    match term {
        Term::Variable(name) => {
            *name == comparison.variable
                && !(column.admits(&comparison.constant) && has_order(comparison.operator, column))
        }
        Term::Hole => false,
        Term::Constant(_) => false,
    }
}

/// Whether a comparison doesn't suit the type of some column of these that has its variable.
fn any_miscompared(comparison: &Comparison, terms: &[Term], columns: &[ColumnType]) -> bool
    ensures { result ≡ any_column (is_miscompared comparison.now) terms.now columns.now }
{
    'places: for i in 0..terms.len().min(columns.len()) {
        if is_miscompared(comparison, &terms[i], columns[i]) {
            return true;
        }
    }
    false
}

/// Whether a comparison doesn't suit the type of a column that has its variable.
fn miscompares<R: Relations>(relations: &R, atoms: &[Atom], comparison: &Comparison) -> bool
    ensures { result ≡ any_place (is_miscompared comparison.now) (R.relations relations.now)
        atoms.now }
{
    for atom in atoms {
        let columns = columns_of(relations, &atom.relation);
        if any_miscompared(comparison, atom.terms.as_slice(), columns) {
            return true;
        }
    }
    false
}

/// Whether a comparison is of a variable that occurs in no atom.
pub(crate) fn compares_unbound(atoms: &[Atom], comparisons: &[Comparison]) -> bool
    ensures { result ≡ list_any (λ c. not (stands_in_atoms atoms.now c.variable)) comparisons.now }
{
    for comparison in comparisons {
        if !stands_in(atoms, &comparison.variable) {
            return true;
        }
    }
    false
}

/// Whether a comparison doesn't suit its variable's type.
pub(crate) fn has_miscompared<R: Relations>(
    relations: &R,
    atoms: &[Atom],
    comparisons: &[Comparison],
) -> bool
    ensures { result ≡ list_any (λ c. any_place (is_miscompared c) (R.relations relations.now)
        atoms.now) comparisons.now }
{
    for comparison in comparisons {
        if miscompares(relations, atoms, comparison) {
            return true;
        }
    }
    false
}
