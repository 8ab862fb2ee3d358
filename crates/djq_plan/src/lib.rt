//! The planner: which queries are free-connex, and the tree of one that is.
//!
//! [`plan`] grows a generalised join tree over a query's atoms in two stages. The first removes no
//! variable of the head and ends when no others are left; the second removes any and ends at a node
//! without variables. The nodes that are current between the stages, and all later ones, are the
//! part `out`, from which the answers are read. A query that isn't free-connex gets a refusal with
//! the rest of a reduction, which shows why.
//!
//! ```text
//! q(x) <- r(x,y)              n 0 leaf r x,y
//!                             n 1 trim 0 x out        the first stage removes y
//!                             n 2 trim 1 - out        the second removes x
//! q(x,z) <- r(x,y), s(y,z)    not connex: x,y  x,z  y,z
//! ```
//!
//! It doesn't search for a good tree among several: the choice rule names one. Why it needs no
//! search: each step preserves, in both directions, whether the head followed by the current labels
//! has a join tree rooted at the head. If it has one and no step applies, all labels are within the
//! head. So a stage that is stuck shows that there is none, whatever steps were applied before.
//!
//! Inside, `choosing` is the rule, `growing` the tree as it grows and the two stages, `refusal` the
//! rests.
//!
//! # Reducing a hypergraph
//!
//! [`reduce`] is the reduction of Marc Graham (*On the universal relation*, Toronto 1979) and of
//! Clement Yu and Meral Ozsoyoglu (*An algorithm for tree-query membership of a distributed query*,
//! COMPSAC 1979). As long as it can, it removes from an edge a variable that is in no other edge,
//! and from the list an edge that is a subset of another one. Nothing with a variable is left if
//! and only if the edges have a join tree; otherwise what is left is the rest, which a refusal
//! returns.
//!
//! ```text
//! x,y  y,z  z,w       x leaves, y lies within y,z, y leaves, z lies within z,w, ..: acyclic
//! x,y  y,z  x,z       each variable lies in two edges, and no edge in another: its own rest
//! ```
//!
//! It doesn't specify which of several possible rests is returned: of two equal edges each is a
//! subset of the other, and one of them is removed. A step is searched for in the present list and
//! applied, until none applies. Any order of steps serves: each step preserves whether there is a
//! join tree, in both directions, and edges with a join tree and a variable always have a step.
//! Proofs of both are in djq_hypergraph. What having a join tree is equivalent to is in Beeri,
//! Fagin, Maier, Yannakakis, *On the desirability of acyclic database schemes*, JACM 1983.
#![tactic(auto)]

mod choosing;
mod find;
mod growing;
mod planner;
mod reducing;
mod refusal;
mod steps;
mod take;

pub use djq_hypergraph::Step;
pub use planner::plan;
pub use reducing::{Reduction, reduce, rest_is_lean, turn_join_tree};
pub use refusal::PlanRefusal;
pub use steps::Steps;
