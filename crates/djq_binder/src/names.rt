//! The names that show a query's variables and relations.
ghost use Rattle.std.specs.Prelude.{◌≡◌, IfOk, map};
ghost use Rattle.djq_protocol.specs.Hypergraph.{label_name};
ghost use Rattle.djq_query.specs.Numbered.{labels};

use djq_hypergraph::Names;
use djq_model::{Name, NoMem, Query};
use djq_query::Variable;
use std::alloc::Global;

/// The name of a variable, if it has one.
fn label_name(variable: &Option<Name>) -> &[u8]
    ensures { result.now ≡ label_name variable.now }
{
    match variable {
        Some(name) => name.as_bytes(),
        None => b"_",
    }
}

/// The names of variables, each at its number.
pub fn variable_names(alloc: Global, variables: &[Variable]) -> Result<Names, NoMem>
    ensures { IfOk result (λ names. names ≡ map label_name (labels variables.now)) }
{
    let mut names = Names::new(alloc);
    'variables: for i in 0..variables.len() {
        names.push(alloc, label_name(&variables[i].name))?;
    }
    Ok(names)
}

/// The names of the relations of a query's atoms, in the atoms' order.
pub fn relation_names(alloc: Global, query: &Query) -> Result<Names, NoMem>
    ensures { IfOk result (λ names. names ≡ map (λ a. a.relation) query.now.atoms) }
{
    let atoms = query.atoms.as_slice();
    let mut names = Names::new(alloc);
    'atoms: for i in 0..atoms.len() {
        names.push(alloc, atoms[i].relation.as_bytes())?;
    }
    Ok(names)
}
