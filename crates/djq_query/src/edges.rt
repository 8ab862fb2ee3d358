ghost use Rattle.std.specs.Prelude.{◌≡◌, ℕ, ◌<◌, true, length, IfOk};
ghost use Rattle.std.specs.List.{list_any};
ghost use Rattle.djq_hypergraph.specs.Hypergraph.{member, edge_at};
ghost use Rattle.djq_protocol.specs.declared.limits.TheConstants.{VARIABLES};
ghost use Rattle.djq_query.specs.Numbered.{are_below, is_number, terms_at};

use crate::numbered::{NumberedQuery, NumberedTerm};
use djq_hypergraph::{Edges, VarSet};
use djq_model::NoMem;
use std::alloc::Global;

/// The variables of terms, whose numbers are below the limit.
pub(crate) fn variables_of(terms: &[NumberedTerm]) -> VarSet
    requires { are_below VARIABLES terms.now ≡ true }
    ensures { (x : ℕ) → member x result ≡ list_any (is_number x) terms.now }
{
    let mut variables = VarSet::new();
    'terms: for i in 0..terms.len() {
        if let NumberedTerm::Variable(number) = terms[i] {
            variables = variables.insert(number);
        }
    }
    variables
}

impl NumberedQuery {
    /// The query's hypergraph: for each atom the set of its variables.
    pub fn edges(&self, alloc: Global) -> Result<Edges, NoMem>
        ensures long { IfOk result (λ es. length es ≡ length self.now.atoms) }
        ensures edges { IfOk result (λ es. (p x : ℕ)
            → member x (edge_at es p) ≡ list_any (is_number x) (terms_at self.now.atoms p)) }
    {
        self.within();
        let mut edges = Edges::new(alloc);
        let atoms = self.atoms();
        'atoms: for i in 0..atoms.len() {
            edges.push(variables_of(atoms[i].terms.as_slice()))?;
        }
        Ok(edges)
    }

    /// The variables of its head.
    pub fn head_variables(&self) -> VarSet
        ensures { (x : ℕ) → member x result ≡ member x self.now.head }
    {
        self.within();
        let mut variables = VarSet::new();
        let head = self.head();
        'head: for i in 0..head.len() {
            variables = variables.insert(head[i]);
        }
        variables
    }
}
