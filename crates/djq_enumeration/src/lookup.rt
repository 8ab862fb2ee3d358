ghost use Rattle.std.specs.Prelude.{◌≡◌, ◌↔◌, ◌+◌, ◌<◌, ◌≤◌, true, length};
ghost use Rattle.djq_hypergraph.specs.Hypergraph.{one};
ghost use Rattle.djq_index.specs.Entries.{count_of};
ghost use Rattle.djq_tree.specs.Tree.{is_out};
ghost use Rattle.djq_reduct.specs.Tables.{entries_at};
ghost use Rattle.djq_reduct.specs.Answers.{IsAnswerOf, on_node};

use crate::levels::project;
use djq_counters::Tally;
use djq_reduct::{Answer, Cells, Reducts};
use std::sync::ledger::Ledger;

/// Whether a node isn't in `out`, or its table has the projection of the answer. It counts a
/// lookup only if the node is in `out`.
fn allows<L: Ledger>(
    reducts: &Reducts,
    node: usize,
    answer: &Answer,
    listing: &mut Tally<L>,
) -> bool
    requires within { node < length reducts.now.tree.nodes }
    requires wide { length answer.now ≡ length reducts.now.tree.head }
    ensures exact { result ≡ true
        ↔ (is_out reducts.now.tree.out node ≡ true
        → 0 < count_of (entries_at reducts.now.tables node) (on_node reducts.now.tree node answer.now)) }
    ensures counted { listing.new ≡ listing.old + one (is_out reducts.now.tree.out node) }
{
    if !reducts.tree().is_out(node) {
        return true;
    }
    let mut tuple = Cells::new(0);
    project(reducts, node, answer, &mut tuple);
    reducts
        .table(node)
        .find(tuple.as_slice(), listing)
        .is_some()
}

/// Whether a tuple over the head is an answer of the reducts. It counts at most one lookup for
/// each atom.
///
/// It looks up the projections on the nodes of `out` that the first stage made. The others follow,
/// since each table is the reduct of its children's.
pub fn has<L: Ledger>(reducts: &Reducts, answer: &Answer, listing: &mut Tally<L>) -> bool
    requires { length answer.now ≡ length reducts.now.tree.head }
    ensures exact { result ≡ true ↔ IsAnswerOf reducts.now answer.now }
    ensures counted { listing.new ≤ listing.old + reducts.now.tree.leaves }
{
    reducts.laws();
    let tree = reducts.tree();
    tree.is_small();
    for node in 0..tree.second_stage() {
        if !allows(reducts, node, answer, listing) {
            return false;
        }
    }
    true
}
