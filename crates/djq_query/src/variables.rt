//! The variables of a head and of a body.
ghost use Rattle.std.specs.Prelude.{◌≡◌, ◌≤◌, ◌<◌, not, length, nat_lt};
ghost use Rattle.std.specs.List.{list_any};
ghost use Rattle.djq_value.specs.Literal.{are_different, has_name};
ghost use Rattle.djq_protocol.specs.declared.limits.TheConstants.{VARIABLES};
ghost use Rattle.djq_protocol.specs.Variables.{
  is_variable as is_variable_named,
  stands_in as stands_in_atoms,
  is_known,
  with_terms,
  variables_of,
};
ghost use Rattle.djq_query.specs.Standing.{is_fresh as is_fresh_behind, CountsUpTo};

use djq_model::{Atom, Name, Term};
use djq_protocol::limits::VARIABLES;

/// Whether a term is the variable of this name.
fn is_variable(term: &Term, name: &Name) -> bool
    ensures { result ≡ is_variable_named name.now term.now }
{
    match term {
        Term::Variable(variable) => variable == name,
        Term::Hole => false,
        Term::Constant(_) => false,
    }
}

/// Whether the variable of a name is among terms.
fn stands_among(terms: &[Term], name: &Name) -> bool
    ensures { result ≡ list_any (is_variable_named name.now) terms.now }
{
    for term in terms {
        if is_variable(term, name) {
            return true;
        }
    }
    false
}

/// Whether the variable of a name is in an atom.
pub(crate) fn stands_in(atoms: &[Atom], name: &Name) -> bool
    ensures { result ≡ stands_in_atoms atoms.now name.now }
{
    for atom in atoms {
        if stands_among(atom.terms.as_slice(), name) {
            return true;
        }
    }
    false
}

/// Whether a variable of a head occurs in no atom.
pub(crate) fn has_unbound(atoms: &[Atom], head: &[Name]) -> bool
    ensures { result ≡ list_any (λ x. not (stands_in_atoms atoms.now x)) head.now }
{
    for name in head {
        if !stands_in(atoms, name) {
            return true;
        }
    }
    false
}

/// Whether a name is among names.
fn has_name(names: &[Name], name: &Name) -> bool
    ensures { result ≡ has_name names.now name.now }
{
    for other in names {
        if name == other {
            return true;
        }
    }
    false
}

/// Whether names occur once each.
pub(crate) fn are_different(names: &[Name]) -> bool
    ensures { result ≡ are_different names.now }
{
    'names: for i in 0..names.len() {
        if has_name(&names[i + 1..], &names[i]) {
            return false;
        }
    }
    true
}

/// Whether a term brings a variable that isn't in the atoms before, nor among the terms before it in
/// its atom.
fn is_fresh(before: &[Atom], beside: &[Term], term: &Term) -> bool
    ensures { result ≡ is_fresh_behind before.now beside.now term.now }
{
    match term {
        Term::Variable(name) => !(stands_in(before, name) || stands_among(beside, name)),
        Term::Hole => true,
        Term::Constant(_) => false,
    }
}

/// How many variables there are with those of an atom's terms, given how many there are in the atoms
/// before; or a number above the limit, if there are more.
fn count_terms(before: &[Atom], terms: &[Term], count: usize) -> usize
    requires few { count ≤ VARIABLES }
    requires counted { count ≡ length (variables_of before.now) }
    ensures { CountsUpTo (length (with_terms (variables_of before.now) terms.now)) result }
{
    let mut count = count;
    'terms: for i in 0..terms.len() {
        if is_fresh(before, &terms[..i], &terms[i]) {
            count += 1;
            if count > VARIABLES {
                return count;
            }
        }
    }
    count
}

/// Whether a body has more variables than the limit, each hole one of its own.
pub(crate) fn has_many(atoms: &[Atom]) -> bool
    ensures { result ≡ nat_lt VARIABLES (length (variables_of atoms.now)) }
{
    let mut count = 0;
    'atoms: for i in 0..atoms.len() {
        count = count_terms(&atoms[..i], atoms[i].terms.as_slice(), count);
        if count > VARIABLES {
            return true;
        }
    }
    false
}
