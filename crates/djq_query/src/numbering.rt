ghost use Rattle.std.specs.Prelude.{
  ◌≡◌,
  IfOk,
  OnOk,
  length,
  map,
  is_none,
  not,
  ◌==◌,
  position,
  false,
  ⊤,
  None,
};
ghost use Rattle.std.specs.List.{list_any, fold};
ghost use Rattle.djq_model.specs.Data.{relation_of};
ghost use Rattle.djq_protocol.specs.Columns.{columns_of};
ghost use Rattle.djq_protocol.specs.Conditions.{Answers, OutOfMemoryWhere};
ghost use Rattle.djq_protocol.specs.QueryFault.{
  query_fault as query_fault_of,
  reads_unknown,
  has_wrong_arity,
};
ghost use Rattle.djq_protocol.specs.Variables.{is_named as is_label_named};
ghost use Rattle.djq_model.specs.declared.query.Term.TheVariants.{Variable as Named};
ghost use Rattle.djq_query.specs.Numbered.{
  labels,
  number_of,
  numbered,
  numbered_terms,
  numbered_comparison,
  with_place,
  with_places,
  with_columns,
  IsNumberedAtom,
  AreNumbered,
  IsNumbered,
};

use crate::fault::query_fault;
use crate::numbered::{NumberedAtom, NumberedComparison, NumberedQuery, NumberedTerm, Variable};
use crate::relations::Relations;
use djq_model::{Atom, ColumnType, Comparison, Name, NoMem, Query, Sequence, Term, Text, Value};
use djq_protocol::Refusal;
use std::alloc::Global;

/// A copy of a value.
fn copy_value(alloc: Global, value: &Value) -> Result<Value, NoMem>
    ensures { IfOk result (λ v. v ≡ value.now) }
{
    match value {
        Value::Int(number) => Ok(Value::Int(*number)),
        Value::Text(text) => {
            let bytes = Vec::from_slice(alloc, text.as_bytes())?;
            Ok(Value::Text(Text::new(bytes)))
        }
    }
}

/// Whether a variable has this name.
fn is_named(variable: &Variable, name: &Name) -> bool
    ensures { result ≡ is_label_named name.now variable.now.name }
{
    match variable.name {
        Some(known) => known == *name,
        None => false,
    }
}

/// The number of a name, which is known then, after the others if it wasn't.
fn number_name(
    known: &mut Sequence<Variable>,
    name: &Name,
    column: ColumnType,
) -> Result<usize, NoMem>
    ensures number { IfOk result (λ n. n ≡ number_of (labels known.old) name.now) }
    ensures known { OnOk result (known.new ≡ with_place known.old (Named name.now) column) }
{
    match place_of(known.as_slice(), name) {
        Some(number) => Ok(number),
        None => {
            let number = known.len();
            let name = Some(*name);
            known.push(Variable { name, column })?;
            Ok(number)
        }
    }
}

/// The place of a name among those known.
fn place_of(known: &[Variable], name: &Name) -> Option<usize>
    ensures { result ≡ position (λ v. is_label_named name.now v.name) known.now }
{
    known.iter().position(|variable| is_named(variable, name))
}

/// A term by number; a variable that wasn't known is, after the others.
fn number_term(
    alloc: Global,
    known: &mut Sequence<Variable>,
    term: &Term,
    column: ColumnType,
) -> Result<NumberedTerm, NoMem>
    ensures term { IfOk result (λ n. n ≡ numbered (labels known.old) term.now) }
    ensures known { OnOk result (known.new ≡ with_place known.old term.now column) }
{
    match term {
        Term::Variable(name) => Ok(NumberedTerm::Variable(number_name(known, name, column)?)),
        Term::Hole => {
            let number = known.len();
            known.push(Variable { name: None, column })?;
            Ok(NumberedTerm::Variable(number))
        }
        Term::Constant(value) => Ok(NumberedTerm::Constant(copy_value(alloc, value)?)),
    }
}

/// The terms of an atom by number, with the columns' types for the variables that weren't known.
fn number_terms(
    alloc: Global,
    known: &mut Sequence<Variable>,
    terms: &[Term],
    columns: &[ColumnType],
) -> Result<Sequence<NumberedTerm>, NoMem>
    requires { length terms.now ≡ length columns.now }
    ensures terms { IfOk result (λ ns. ns ≡ numbered_terms (labels known.old) terms.now) }
    ensures known { OnOk result (known.new ≡ with_places known.old terms.now columns.now) }
{
    let mut numbered = Sequence::new(alloc);
    'terms: for i in 0..terms.len() {
        numbered.push(number_term(alloc, known, &terms[i], columns[i])?)?;
    }
    Ok(numbered)
}

/// An atom by number, whose relation is there and has as many columns as the atom has terms.
fn number_atom<R: Relations>(
    alloc: Global,
    relations: &R,
    known: &mut Sequence<Variable>,
    atom: &Atom,
) -> Result<NumberedAtom, NoMem>
    requires there { is_none (relation_of (R.relations relations.now) atom.now.relation) ≡ false }
    requires arity { length atom.now.terms ≡ length (columns_of (R.relations relations.now)
        atom.now.relation) }
    ensures atom { IfOk result (λ n. IsNumberedAtom (R.relations relations.now) (labels known.old)
        atom.now n) }
    ensures known { OnOk result (known.new
        ≡ with_columns (R.relations relations.now) known.old atom.now) }
{
    let Some(relation) = relations.id(&atom.relation) else {
        unreachable!();
    };
    let columns = relations.columns(relation);
    let terms = number_terms(alloc, known, atom.terms.as_slice(), columns)?;
    Ok(NumberedAtom { relation, terms })
}

/// The atoms of a body by number.
fn number_body<R: Relations>(
    alloc: Global,
    relations: &R,
    known: &mut Sequence<Variable>,
    atoms: &[Atom],
) -> Result<Sequence<NumberedAtom>, NoMem>
    requires there { list_any
        (λ a. is_none (relation_of (R.relations relations.now) a.relation)) atoms.now ≡ false }
    requires arity { list_any
        (λ a. not (length a.terms
        == length (columns_of (R.relations relations.now) a.relation))) atoms.now ≡ false }
    ensures atoms { IfOk result (λ ns.
        AreNumbered (R.relations relations.now) (labels known.old) atoms.now ns) }
    ensures known { OnOk result (known.new
        ≡ fold (with_columns (R.relations relations.now)) known.old atoms.now) }
{
    let mut numbered = Sequence::new(alloc);
    'atoms: for i in 0..atoms.len() {
        numbered.push(number_atom(alloc, relations, known, &atoms[i])?)?;
    }
    Ok(numbered)
}

/// The numbers of a head's names.
fn number_head(alloc: Global, known: &[Variable], head: &[Name]) -> Result<Sequence<usize>, NoMem>
    ensures { IfOk result (λ ns. ns ≡ map (number_of (labels known.now)) head.now) }
{
    let mut numbers = Sequence::new(alloc);
    for name in head {
        numbers.push(place_of(known, name).unwrap_or(known.len()))?;
    }
    Ok(numbers)
}

/// A comparison over the number of its variable.
fn number_comparison(
    alloc: Global,
    known: &[Variable],
    comparison: &Comparison,
) -> Result<NumberedComparison, NoMem>
    ensures { IfOk result (λ n. n ≡ numbered_comparison (labels known.now) comparison.now) }
{
    Ok(NumberedComparison {
        variable: place_of(known, &comparison.variable).unwrap_or(known.len()),
        operator: comparison.operator,
        constant: copy_value(alloc, &comparison.constant)?,
    })
}

/// Comparisons over the numbers of their variables.
fn number_comparisons(
    alloc: Global,
    known: &[Variable],
    comparisons: &[Comparison],
) -> Result<Sequence<NumberedComparison>, NoMem>
    ensures { IfOk result (λ ns. ns ≡ map (numbered_comparison (labels known.now)) comparisons.now) }
{
    let mut numbered = Sequence::new(alloc);
    for comparison in comparisons {
        numbered.push(number_comparison(alloc, known, comparison)?)?;
    }
    Ok(numbered)
}

/// The query by number over relations.
///
/// # Errors
///
/// Each refusal that [`query_fault`] gives; `NoMemory` out of memory.
pub fn number<R: Relations>(
    alloc: Global,
    relations: &R,
    query: &Query,
) -> Result<NumberedQuery, Refusal>
    ensures { Answers (query_fault_of (R.relations relations.now) query.now) result (IsNumbered
        (R.relations relations.now) query.now) (OutOfMemoryWhere ⊤) }
{
    if let Some(refusal) = query_fault(relations, query) {
        return Err(refusal);
    }
    match number_sound(alloc, relations, query) {
        Ok(numbered) => Ok(numbered),
        Err(NoMem) => Err(Refusal::NoMemory),
    }
}

/// A query without a fault by number.
fn number_sound<R: Relations>(
    alloc: Global,
    relations: &R,
    query: &Query,
) -> Result<NumberedQuery, NoMem>
    requires { query_fault_of (R.relations relations.now) query.now ≡ None }
    ensures { IfOk result (IsNumbered (R.relations relations.now) query.now) }
{
    let mut variables = Sequence::new(alloc);
    let atoms = number_body(alloc, relations, &mut variables, query.atoms.as_slice())?;
    let known = variables.as_slice();
    let comparisons = number_comparisons(alloc, known, query.comparisons.as_slice())?;
    let head = number_head(alloc, known, query.head.as_slice())?;
    Ok(NumberedQuery::new(head, atoms, comparisons, variables))
}
