ghost use Rattle.std.specs.Prelude.{◌≡◌, ◌<◌, true, length};
ghost use Rattle.djq_index.specs.Table.{AreColumns};
ghost use Rattle.djq_tree.specs.Tree.{is_out};
ghost use Rattle.djq_reduct.specs.Answers.{on_node};
ghost use Rattle.djq_enumeration.specs.Levels.{IsLevel, cells_put, source, step};
ghost use Rattle.djq_enumeration.specs.Walk.{IsAlive, chosen};

use crate::places::Choice;
use djq_reduct::{Answer, Cells, Reducts};
use djq_tree::{Node, Tree};

/// The node from whose table the tuple of a level is chosen.
pub fn source(tree: &Tree, level: usize) -> usize
    requires { IsLevel tree.now level }
    ensures source { result ≡ source tree.now level }
    ensures within { result < length tree.now.nodes }
{
    let _nodes = tree.len();
    match tree.node(level) {
        Node::Trim { child } => child,
        Node::Leaf { .. } | Node::Meet { .. } => unreachable!(),
    }
}

/// Puts the projection of an answer on a node of `out` into cells.
pub(crate) fn project(reducts: &Reducts, node: usize, answer: &Answer, cells: &mut Cells)
    requires out { is_out reducts.now.tree.out node ≡ true }
    requires wide { length answer.now ≡ length reducts.now.tree.head }
    ensures { cells.new ≡ on_node reducts.now.tree node answer.now }
{
    reducts.laws();
    cells.take_part(answer.as_slice(), reducts.columns(node));
}

/// Writes cells at these columns of an answer. They are few, so that one or two cost no loop.
#[inline(always)]
#[tactic(auto, using(crate::proofs::Cells::first_below, crate::proofs::Cells::second_below))]
fn write_tuple(columns: &[usize], tuple: &[u64], answer: &mut Answer)
    requires long { length tuple.now ≡ length columns.now }
    requires within { AreColumns (length answer.old) columns.now }
    ensures { answer.new ≡ cells_put columns.now tuple.now answer.old }
{
    match columns.len() {
        1 => answer.set(columns[0], tuple[0]),
        2 => {
            answer.set(columns[0], tuple[0]);
            answer.set(columns[1], tuple[1]);
        }
        _ => write_each(columns, tuple, answer),
    }
}

/// The same cell by cell.
#[inline(never)]
fn write_each(columns: &[usize], tuple: &[u64], answer: &mut Answer)
    requires long { length tuple.now ≡ length columns.now }
    requires within { AreColumns (length answer.old) columns.now }
    ensures { answer.new ≡ cells_put columns.now tuple.now answer.old }
{
    for at in 0..columns.len() {
        answer.set(columns[at], tuple[at]);
    }
}

/// Writes the tuple of a choice into an answer.
pub(crate) fn write_choice(reducts: &Reducts, choice: Choice, answer: &mut Answer)
    requires alive { IsAlive reducts.now choice }
    requires wide { length answer.old ≡ length reducts.now.tree.head }
    ensures { answer.new
        ≡ step reducts.now.tree choice.level answer.old (chosen reducts.now choice) }
{
    reducts.laws();
    let node = source(reducts.tree(), choice.level);
    let tuple = reducts.table(node).tuple(choice.place);
    write_tuple(reducts.columns(node), tuple, answer);
}
