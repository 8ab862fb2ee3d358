use djq_hypergraph::VarSet;

/// The next step by the planner's choice rule, with places in the list of the current nodes.
#[derive(Clone, Copy, Debug, PartialEq, Eq)]
pub enum Choice {
    /// A node loses variables that are in no other current one.
    Trim {
        /// The node's place.
        place: usize,
        /// The variables that it loses.
        removed: VarSet,
    },
    /// Two nodes become one.
    Meet {
        /// The place of the node that has all the variables.
        guard: usize,
        /// The place of the other one.
        side: usize,
    },
    /// There is no step.
    Stuck,
}
