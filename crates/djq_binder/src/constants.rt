//! The constants of a query, made known.
ghost use Rattle.std.specs.Prelude.{◌≡◌, [], ◌∷◌, ◌++◌, if◌then◌else◌};
ghost use Rattle.std.specs.List.{flat_map};
ghost use Rattle.djq_protocol.specs.Variables.{
  compared_behind,
  compared_last,
  constant_of,
  constants_of,
};
ghost use Rattle.djq_binder.specs.Planning.{InternsConstants};

use djq_database::Catalog;
use djq_dictionary::InternRefusal;
use djq_model::{Atom, Comparison, Query, Term, Value};

/// Makes the text of a constant known, if it is one.
fn intern_constant(catalog: &mut Catalog, value: &Value) -> Result<(), InternRefusal>
    ensures interns { InternsConstants catalog.old.texts (value.now ∷ []) result
        catalog.new.texts }
    ensures relations { catalog.new.relations ≡ catalog.old.relations }
{
    match catalog.intern(value) {
        Ok(_cell) => {
            catalog.laws();
            Ok(())
        }
        Err(refusal) => Err(refusal),
    }
}

/// Makes the text of a term known, if it is a constant.
fn intern_term(catalog: &mut Catalog, term: &Term) -> Result<(), InternRefusal>
    ensures interns { InternsConstants catalog.old.texts (constant_of term.now) result
        catalog.new.texts }
    ensures relations { catalog.new.relations ≡ catalog.old.relations }
{
    match term {
        Term::Constant(value) => intern_constant(catalog, value),
        _ => {
            catalog.laws();
            Ok(())
        }
    }
}

/// Makes the constants of an atom known, one after another.
fn intern_terms(catalog: &mut Catalog, terms: &[Term]) -> Result<(), InternRefusal>
    ensures interns { InternsConstants catalog.old.texts (flat_map constant_of terms.now) result
        catalog.new.texts }
    ensures relations { catalog.new.relations ≡ catalog.old.relations }
{
    catalog.laws();
    'terms: for i in 0..terms.len() {
        match intern_term(catalog, &terms[i]) {
            Ok(()) => {}
            Err(refusal) => return Err(refusal),
        }
    }
    Ok(())
}

/// Makes the text of a comparison's constant known, if the comparison is here.
fn intern_if(
    catalog: &mut Catalog,
    comparison: &Comparison,
    here: bool,
) -> Result<(), InternRefusal>
    ensures interns { InternsConstants catalog.old.texts
        (if here then comparison.now.constant ∷ [] else []) result catalog.new.texts }
    ensures relations { catalog.new.relations ≡ catalog.old.relations }
{
    if here {
        return intern_constant(catalog, &comparison.constant);
    }
    catalog.laws();
    Ok(())
}

/// Makes the constants of the comparisons known that follow so many atoms, and before the next
/// one.
fn intern_behind(
    catalog: &mut Catalog,
    comparisons: &[Comparison],
    count: usize,
) -> Result<(), InternRefusal>
    ensures interns { InternsConstants catalog.old.texts (compared_behind count comparisons.now)
        result catalog.new.texts }
    ensures relations { catalog.new.relations ≡ catalog.old.relations }
{
    catalog.laws();
    'comparisons: for i in 0..comparisons.len() {
        let comparison = &comparisons[i];
        match intern_if(catalog, comparison, comparison.behind == count) {
            Ok(()) => {}
            Err(refusal) => return Err(refusal),
        }
    }
    Ok(())
}

/// Makes the constants of the comparisons known that follow all atoms.
fn intern_last(
    catalog: &mut Catalog,
    comparisons: &[Comparison],
    count: usize,
) -> Result<(), InternRefusal>
    ensures interns { InternsConstants catalog.old.texts (compared_last count comparisons.now)
        result catalog.new.texts }
    ensures relations { catalog.new.relations ≡ catalog.old.relations }
{
    catalog.laws();
    'comparisons: for i in 0..comparisons.len() {
        let comparison = &comparisons[i];
        match intern_if(catalog, comparison, count <= comparison.behind) {
            Ok(()) => {}
            Err(refusal) => return Err(refusal),
        }
    }
    Ok(())
}

/// Makes the constants of an atom known, after those of the comparisons before it.
fn intern_up_to(
    catalog: &mut Catalog,
    comparisons: &[Comparison],
    count: usize,
    atom: &Atom,
) -> Result<(), InternRefusal>
    ensures interns { InternsConstants catalog.old.texts (compared_behind count comparisons.now
        ++ flat_map constant_of atom.now.terms) result catalog.new.texts }
    ensures relations { catalog.new.relations ≡ catalog.old.relations }
{
    match intern_behind(catalog, comparisons, count) {
        Ok(()) => intern_terms(catalog, atom.terms.as_slice()),
        Err(refusal) => Err(refusal),
    }
}

/// Makes the constants of a query known, one after another in the order of its body: those of the
/// atoms, and those of the comparisons among them.
///
/// # Errors
///
/// `Full` if a text is unknown and as many are known as may be; `NoMem` out of memory. The texts
/// before it are known then.
pub fn intern_constants(catalog: &mut Catalog, query: &Query) -> Result<(), InternRefusal>
    ensures interns { InternsConstants catalog.old.texts (constants_of query.now) result
        catalog.new.texts }
    ensures relations { catalog.new.relations ≡ catalog.old.relations }
{
    catalog.laws();
    let atoms = query.atoms.as_slice();
    let comparisons = query.comparisons.as_slice();
    'atoms: for i in 0..atoms.len() {
        match intern_up_to(catalog, comparisons, i, &atoms[i]) {
            Ok(()) => {}
            Err(refusal) => return Err(refusal),
        }
    }
    intern_last(catalog, comparisons, atoms.len())
}
