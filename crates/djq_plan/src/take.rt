ghost use Rattle.std.specs.Prelude.{◌≡◌};
ghost use Rattle.djq_hypergraph.specs.Gyo.{IsStep, reduced};

use djq_hypergraph::{Step, VarSet};

/// Applies the step.
pub fn take_step(sets: &mut Vec<VarSet>, step: Step)
    requires { IsStep sets.old.items step }
    ensures { sets.new.items ≡ reduced sets.old.items step }
{
    match step {
        Step::Vertex { edge, variable } => {
            let set = sets[edge];
            sets[edge] = set.without(variable);
        }
        Step::Edge { edge, within: _ } => {
            let _taken = sets.remove(edge);
        }
    }
}
