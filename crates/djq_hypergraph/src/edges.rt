ghost use Rattle.std.specs.Prelude.{◌≡◌, ◌<◌, ◌==◌, ◌++◌, ◌∷◌, [], length, slice_get, Some, IfOk};
ghost use Rattle.std.specs.Prelude.{OnOk, OnErr, IsTrue, ◌↔◌, ℕ, nat_lt};
ghost use Rattle.djq_hypergraph.specs.Hypergraph.{member, degree};
ghost use Rattle.djq_hypergraph.specs.Variables.{AreCovered, AreNamed, AreVariableSets};

use crate::names::Names;
use crate::var_set::VarSet;
use std::alloc::{AllocError, Global};
use std::marker::Model;

/// A list of edges, each a set of variables: a hypergraph. Equal edges and empty ones are fine.
#[derive(Debug, Drop)]
pub struct Edges {
    sets: Vec<VarSet>,
}

impl Model for Edges {
    ghost use Rattle.std.specs.Prelude.{List, ℕ};

    ghost Value = { List (List ℕ) };

    ghost view = { λ e. e.sets.items };
}

/// The variables that lie in one of the sets.
pub(crate) fn variables(sets: &[VarSet]) -> VarSet
    ensures { (x : ℕ) → member x result ≡ nat_lt 0 (degree x sets.now) }
{
    let mut all = VarSet::new();
    'sets: for i in 0..sets.len() {
        all = all.union(sets[i]);
    }
    all
}

impl Edges {
    /// The list of no edge, which allocates nothing.
    pub fn new(alloc: Global) -> Edges
        ensures { result ≡ [] }
    {
        Edges {
            sets: Vec::new(alloc),
        }
    }

    /// The edges of a list, which is moved in.
    pub fn from_sets(sets: Vec<VarSet>) -> Edges
        ensures { result ≡ sets.items }
    {
        Edges { sets }
    }

    /// A copy.
    pub fn copy(&self, alloc: Global) -> Result<Edges, AllocError>
        ensures { IfOk result (λ e. e ≡ self.now) }
    {
        let sets = Vec::from_slice(alloc, &self.sets)?;
        Ok(Edges { sets })
    }

    /// Appends an edge.
    pub fn push(&mut self, edge: VarSet) -> Result<(), AllocError>
        ensures ok { OnOk result (self.new ≡ self.old ++ edge ∷ []) }
        ensures err { OnErr result (self.new ≡ self.old) }
    {
        self.sets.push(edge)?;
        Ok(())
    }

    /// How many edges there are.
    pub fn len(&self) -> usize
        ensures { result ≡ length self.now }
    {
        self.sets.len()
    }

    /// Whether there is no edge.
    pub fn is_empty(&self) -> bool
        ensures { result ≡ (length self.now == 0) }
    {
        self.sets.is_empty()
    }

    /// The edge at a position.
    pub fn get(&self, position: usize) -> VarSet
        requires { position < length self.now }
        ensures { slice_get self.now position ≡ Some result }
    {
        self.sets[position]
    }

    /// The variables that lie in an edge.
    pub fn variables(&self) -> VarSet
        ensures { (x : ℕ) → member x result ≡ nat_lt 0 (degree x self.now) }
    {
        variables(&self.sets)
    }

    /// Whether each variable of the set lies in an edge.
    pub fn covers(&self, set: VarSet) -> bool
        ensures { IsTrue result ↔ AreCovered set self.now }
    {
        set.is_subset(self.variables())
    }

    /// Whether each variable of an edge has a name, that at its number.
    pub fn is_named(&self, names: &Names) -> bool
        ensures { IsTrue result ↔ AreNamed names.now self.now }
    {
        let mut rest = self.variables();
        while let Some(variable) = rest.pop() {
            if variable >= names.len() {
                return false;
            }
        }
        true
    }

    /// The law that each edge is a set: its variables rise and are below
    /// [`VARIABLES`](crate::VARIABLES).
    pub fn rise(&self)
        ensures { AreVariableSets self.now }
    {
        for set in &self.sets {
            set.rises();
        }
    }

    /// The edges, in order.
    pub fn as_slice(&self) -> &[VarSet]
        ensures { result.now ≡ self.now }
    {
        &self.sets
    }
}
