ghost use Rattle.std.specs.Prelude.{◌≡◌, ℕ, ◌==◌};
ghost use Rattle.djq_hypergraph.specs.Hypergraph.{member, degree};

use crate::var_set::VarSet;

/// The variables that are in one of the sets and in no other.
///
/// Reads them once, with two words of memory.
pub fn own_variables(sets: &[VarSet]) -> VarSet
    ensures { (x : ℕ) → member x result ≡ (degree x sets.now == 1) }
{
    let mut once = VarSet::new();
    let mut twice = VarSet::new();
    'sets: for i in 0..sets.len() {
        let set = sets[i];
        twice = twice.union(once.intersection(set));
        once = once.union(set);
    }
    once.difference(twice)
}
