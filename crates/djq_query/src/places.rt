//! The places of a body, each a term with the type of its column: what is wrong at one of them.
ghost use Rattle.std.specs.Prelude.{◌≡◌, ◌==◌, not, is_none, length};
ghost use Rattle.std.specs.List.{list_any};
ghost use Rattle.djq_model.specs.Data.{relation_of};
ghost use Rattle.djq_protocol.specs.Columns as spec;
ghost use Rattle.djq_protocol.specs.Columns.{columns_of as columns_named};
ghost use Rattle.djq_protocol.specs.QueryFault.{any_column, any_place, is_misfit, is_clash};
ghost use Rattle.djq_query.specs.Clashes.{clashes_with, mixes};

use crate::relations::{Relations, columns_of};
use djq_model::{Atom, ColumnType, Name, Term};

/// Whether a term is a constant of another type than its column.
fn is_misfit(term: &Term, column: ColumnType) -> bool
    ensures { result ≡ is_misfit term.now column }
{
    match term {
        Term::Constant(value) => !column.admits(value),
        Term::Variable(_) => false,
        Term::Hole => false,
    }
}

/// Whether a term is this variable at a column of another type.
fn is_clash(name: &Name, of: ColumnType, term: &Term, column: ColumnType) -> bool
    ensures { result ≡ clashes_with name.now of term.now column }
{
    match term {
        Term::Variable(variable) => variable == name && !column.is_same(of),
        Term::Hole => false,
        Term::Constant(_) => false,
    }
}

/// Whether a constant is of another type than its column.
fn any_misfit(terms: &[Term], columns: &[ColumnType]) -> bool
    ensures { result ≡ any_column is_misfit terms.now columns.now }
{
    'places: for i in 0..terms.len().min(columns.len()) {
        if is_misfit(&terms[i], columns[i]) {
            return true;
        }
    }
    false
}

/// Whether a column of another type has this variable.
fn any_clash(name: &Name, of: ColumnType, terms: &[Term], columns: &[ColumnType]) -> bool
    ensures { result ≡ any_column (clashes_with name.now of) terms.now columns.now }
{
    'places: for i in 0..terms.len().min(columns.len()) {
        if is_clash(name, of, &terms[i], columns[i]) {
            return true;
        }
    }
    false
}

/// Whether a variable of a column of this type is also at a column of another type.
fn clashes<R: Relations>(relations: &R, atoms: &[Atom], name: &Name, of: ColumnType) -> bool
    ensures { result ≡ any_place (clashes_with name.now of) (R.relations relations.now) atoms.now }
{
    for atom in atoms {
        if any_clash(
            name,
            of,
            atom.terms.as_slice(),
            columns_of(relations, &atom.relation),
        ) {
            return true;
        }
    }
    false
}

/// Whether a term is a variable that is at a column of another type too.
fn is_mixed<R: Relations>(relations: &R, atoms: &[Atom], term: &Term, column: ColumnType) -> bool
    ensures { result ≡ mixes (R.relations relations.now) atoms.now term.now column }
{
    match term {
        Term::Variable(name) => clashes(relations, atoms, name, column),
        Term::Hole => false,
        Term::Constant(_value) => false,
    }
}

/// Whether a variable among these terms is at a column of another type too.
fn any_mixed<R: Relations>(
    relations: &R,
    atoms: &[Atom],
    terms: &[Term],
    columns: &[ColumnType],
) -> bool
    ensures { result ≡ any_column (mixes (R.relations relations.now) atoms.now) terms.now
        columns.now }
{
    'places: for i in 0..terms.len().min(columns.len()) {
        if is_mixed(relations, atoms, &terms[i], columns[i]) {
            return true;
        }
    }
    false
}

/// Whether an atom is over a relation that isn't there.
pub(crate) fn reads_unknown<R: Relations>(relations: &R, atoms: &[Atom]) -> bool
    ensures { result ≡ list_any (λ a. is_none (relation_of (R.relations relations.now) a.relation))
        atoms.now }
{
    for atom in atoms {
        if relations.id(&atom.relation).is_none() {
            return true;
        }
    }
    false
}

/// Whether an atom has another number of terms than its relation has columns.
pub(crate) fn has_wrong_arity<R: Relations>(relations: &R, atoms: &[Atom]) -> bool
    ensures { result ≡ list_any (λ a. not (length a.terms == length (columns_named (R.relations
        relations.now) a.relation))) atoms.now }
{
    for atom in atoms {
        if atom.terms.len() != columns_of(relations, &atom.relation).len() {
            return true;
        }
    }
    false
}

/// Whether a constant is of another type than its column.
pub(crate) fn has_misfit<R: Relations>(relations: &R, atoms: &[Atom]) -> bool
    ensures { result ≡ any_place is_misfit (R.relations relations.now) atoms.now }
{
    for atom in atoms {
        if any_misfit(atom.terms.as_slice(), columns_of(relations, &atom.relation)) {
            return true;
        }
    }
    false
}

/// Whether a variable is at columns of two types.
///
/// It compares each place with each other one, which needs no memory; a line's length bounds both.
pub(crate) fn has_clash<R: Relations>(relations: &R, atoms: &[Atom]) -> bool
    ensures { result ≡ any_place (mixes (R.relations relations.now) atoms.now) (R.relations
        relations.now) atoms.now }
{
    for atom in atoms {
        let columns = columns_of(relations, &atom.relation);
        if any_mixed(relations, atoms, atom.terms.as_slice(), columns) {
            return true;
        }
    }
    false
}
