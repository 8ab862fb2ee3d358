//! The choice rule: which step is next.
ghost use Rattle.std.specs.Prelude.{◌≡◌, ◌<◌, ◌&&◌, not, length, is_some};
ghost use Rattle.djq_hypergraph.specs.Hypergraph.{subset};
ghost use Rattle.djq_tree.specs.Choosing.{choose, choose_equal, choose_inside, cover, lowest, twin};

use djq_hypergraph::{VarSet, own_variables};
use djq_tree::Choice;

/// The step that the rule names for the current labels, given that the variables of `keep` may not
/// be removed.
///
/// The lowest node with a variable that is in no other label and may be removed is trimmed of all
/// such variables. Failing that, the lowest two nodes with equal labels meet; failing that, the
/// lowest node whose label is a proper subset of another one meets the lowest such node.
pub(crate) fn choose_step(labels: &[VarSet], keep: VarSet) -> Choice
    ensures { result ≡ choose keep labels.now }
{
    let own = own_variables(labels);
    for place in 0..labels.len() {
        let removed = labels[place].intersection(own).difference(keep);
        if !removed.is_empty() {
            return Choice::Trim { place, removed };
        }
    }
    choose_twins(labels)
}

/// The lowest two nodes with equal labels meet; else one whose label is a subset of another's.
fn choose_twins(labels: &[VarSet]) -> Choice
    ensures { result ≡ choose_equal labels.now (lowest (λ a. is_some (twin labels.now a)) labels.now) }
{
    for guard in 0..labels.len() {
        if let Some(side) = find_twin(labels, guard) {
            return Choice::Meet { guard, side };
        }
    }
    choose_covered(labels)
}

/// The lowest node whose label is a proper subset of another one meets the lowest such node; else
/// no step applies.
fn choose_covered(labels: &[VarSet]) -> Choice
    ensures { result ≡ choose_inside labels.now (lowest (λ s. is_some (cover labels.now s)) labels.now) }
{
    for side in 0..labels.len() {
        if let Some(guard) = find_cover(labels, side) {
            return Choice::Meet { guard, side };
        }
    }
    Choice::Stuck
}

/// The next place with an equal label.
fn find_twin(labels: &[VarSet], place: usize) -> Option<usize>
    requires { place < length labels.now }
    ensures { result ≡ twin labels.now place }
{
    for other in place + 1..labels.len() {
        if are_equal(labels[place], labels[other]) {
            return Some(other);
        }
    }
    None
}

/// The lowest place with a label that contains this one and more.
fn find_cover(labels: &[VarSet], place: usize) -> Option<usize>
    requires { place < length labels.now }
    ensures { result ≡ cover labels.now place }
{
    for other in 0..labels.len() {
        if is_inside(labels[place], labels[other]) {
            return Some(other);
        }
    }
    None
}

/// Whether two labels have the same variables.
fn are_equal(a: VarSet, b: VarSet) -> bool
    ensures { result ≡ (subset a b && subset b a) }
{
    a.is_subset(b) && b.is_subset(a)
}

/// Whether a label is a proper subset of another one.
fn is_inside(inner: VarSet, outer: VarSet) -> bool
    ensures { result ≡ (subset inner outer && not (subset outer inner)) }
{
    inner.is_subset(outer) && !outer.is_subset(inner)
}
