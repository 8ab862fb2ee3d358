ghost use Rattle.std.specs.Prelude.{◌≡◌, ◌==◌, length};

use djq_hypergraph::Step;
use std::marker::Model;

/// The steps of a reduction, in the order in which they were applied. A step's positions are those
/// of the list that it is applied to: after an edge is removed, the edges after it have moved up.
#[derive(Debug, Drop)]
pub struct Steps {
    steps: Vec<Step>,
}

impl Model for Steps {
    ghost use Rattle.std.specs.Prelude.{List};
    ghost use Rattle.djq_hypergraph.specs.declared.step.Step.{Step};

    ghost Value = { List Step };

    ghost view = { λ s. s.steps.items };
}

impl Steps {
    /// The steps of a list, which is moved in.
    pub fn from_steps(steps: Vec<Step>) -> Steps
        ensures { result ≡ steps.items }
    {
        Steps { steps }
    }

    /// How many steps there are.
    pub fn len(&self) -> usize
        ensures { result ≡ length self.now }
    {
        self.steps.len()
    }

    /// Whether there is no step.
    pub fn is_empty(&self) -> bool
        ensures { result ≡ (length self.now == 0) }
    {
        self.steps.is_empty()
    }

    /// The steps, in order.
    pub fn as_slice(&self) -> &[Step]
        ensures { result.now ≡ self.now }
    {
        &self.steps
    }
}
