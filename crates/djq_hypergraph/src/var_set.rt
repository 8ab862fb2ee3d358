ghost use Rattle.std.specs.Prelude.{◌≡◌, ℕ, ◌<◌, [], ◌∷◌, ◌||◌, ◌==◌, ◌++◌, length, slice_get, option_to_list, IfNone};
ghost use Rattle.djq_hypergraph.specs.Hypergraph.{member, subset, difference, intersection};
ghost use Rattle.djq_hypergraph.specs.Variables.{IsVariableSet};

use std::marker::Model;

/// How many variables there may be: a variable is a number below this.
pub const VARIABLES: usize = 128;

/// A set of variables, stored in one word with a bit for each.
///
/// Contracts see the list of its variables in rising order.
#[derive(Clone, Copy, Debug, PartialEq, Eq)]
pub struct VarSet {
    mask: u128,
}

impl Model for VarSet {
    ghost use Rattle.std.specs.Prelude.{List, ℕ};

    ghost Value = { List ℕ };

    ghost use Rattle.std.specs.Prelude.{◌<◌, ◌^◌};
    ghost use Rattle.djq_hypergraph.specs.Masks.{mask_variables};
    ghost use Rattle.djq_hypergraph.specs.Insides.{set_of, set_back};
    ghost use Rattle.djq_hypergraph.specs.declared.var_set.TheConstants.{VARIABLES};

    ghost view = { λ s. mask_variables s.mask };

    ghost invariant = { λ s. s.mask < 2 ^ VARIABLES };

    ghost inverse = { λ l. set_of l };

    ghost inverse_ok = { λ a h. set_back a h };
}

impl VarSet {
    /// The set of no variable.
    pub fn new() -> VarSet
        ensures { result ≡ [] }
    {
        VarSet { mask: 0 }
    }

    /// Whether the variable is in the set. None from [`VARIABLES`] on is.
    pub fn contains(self, variable: usize) -> bool
        ensures { result ≡ member variable self }
    {
        variable < VARIABLES && (self.mask >> variable) & 1 == 1
    }

    /// Whether each variable of this set is in the other one.
    pub fn is_subset(self, other: VarSet) -> bool
        ensures { result ≡ subset self other }
    {
        self.mask & other.mask == self.mask
    }

    /// Whether there is no variable in the set.
    pub fn is_empty(self) -> bool
        ensures { result ≡ (length self == 0) }
    {
        self.mask == 0
    }

    /// The variables of this set that aren't in the other one.
    pub fn difference(self, other: VarSet) -> VarSet
        ensures { result ≡ difference self other }
    {
        VarSet {
            mask: self.mask & !other.mask,
        }
    }

    /// The variables that are in both.
    pub fn intersection(self, other: VarSet) -> VarSet
        ensures { result ≡ intersection self other }
    {
        VarSet {
            mask: self.mask & other.mask,
        }
    }

    /// The variables that are in one of them.
    pub fn union(self, other: VarSet) -> VarSet
        ensures { (x : ℕ) → member x result ≡ (member x self || member x other) }
    {
        VarSet {
            mask: self.mask | other.mask,
        }
    }

    /// This set and the variable.
    pub fn insert(self, variable: usize) -> VarSet
        requires { variable < VARIABLES }
        ensures { (x : ℕ) → member x result ≡ ((x == variable) || member x self) }
    {
        VarSet {
            mask: self.mask | (1 << variable),
        }
    }

    /// This set without the variable. None from [`VARIABLES`] on is in a set.
    pub fn without(self, variable: usize) -> VarSet
        ensures { result ≡ difference self (variable ∷ []) }
    {
        if variable >= VARIABLES {
            return self;
        }
        VarSet {
            mask: self.mask & !(1 << variable),
        }
    }

    /// How many variables there are.
    pub fn len(self) -> usize
        ensures { result ≡ length self }
    {
        self.mask.count_ones() as usize
    }

    /// The lowest variable.
    pub fn first(self) -> Option<usize>
        ensures { result ≡ slice_get self 0 }
    {
        if self.mask == 0 {
            return None;
        }
        Some(self.mask.trailing_zeros() as usize)
    }

    /// Removes the lowest variable.
    pub fn pop(&mut self) -> Option<usize>
        ensures taken { self.old ≡ option_to_list result ++ self.new }
        ensures none { IfNone result (self.old ≡ []) }
    {
        if self.mask == 0 {
            return None;
        }
        let lowest = self.mask.trailing_zeros() as usize;
        self.mask &= !(1 << lowest);
        Some(lowest)
    }

    /// The law that the variables rise and are below [`VARIABLES`].
    pub fn rises(self)
        ensures { IsVariableSet self }
    {
        let _mask = &self.mask;
    }
}
