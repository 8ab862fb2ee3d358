ghost use Rattle.std.specs.Prelude.{◌≡◌, ◌↔◌, ◌+◌, ◌<◌, ◌≤◌, ℕ, true, nat_lt, length, map};
ghost use Rattle.std.specs.List.{list_all};
ghost use Rattle.djq_model.specs.Typed.{fits};
ghost use Rattle.djq_reduct.specs.Columns.{column};
ghost use Rattle.djq_hypergraph.specs.Hypergraph.{member};
ghost use Rattle.djq_binder.specs.Asked.{column_of};
ghost use Rattle.djq_live_query.specs.Order.{cell_of_variable, AreCellsOfAnswer};
ghost use Rattle.djq_index.specs.declared.cells.TheConstants.{CELLS};

use djq_counters::Tally;
use djq_hypergraph::VarSet;
use djq_model::{ColumnType, Value};
use djq_query::Variable;
use djq_reduct::{Answer, Cells, Reducts};
use std::sync::ledger::Ledger;

/// The type of the columns of a variable.
pub(crate) fn column_at(variables: &[Variable], variable: usize) -> ColumnType
    requires { variable < length variables.now }
    ensures { result ≡ column_of variables.now variable }
{
    variables[variable].column
}

/// Whether each value of a tuple is of the type of the head's variable at its place.
pub(crate) fn suits_head(variables: &[Variable], head: &[usize], tuple: &[Value]) -> bool
    requires within { list_all (λ x. nat_lt x (length variables.now)) head.now ≡ true }
    requires long { length tuple.now ≡ length head.now }
    ensures { result ≡ fits (map (column_of variables.now) head.now) tuple.now }
{
    for at in 0..head.len() {
        if !column_at(variables, head[at]).admits(&tuple[at]) {
            return false;
        }
    }
    true
}

/// The first place of a variable in a head; if it isn't there, how long that is.
fn place_of(head: &[usize], variable: usize) -> usize
    ensures { result ≡ column head.now variable }
{
    for at in 0..head.len() {
        if head[at] == variable {
            return at;
        }
    }
    head.len()
}

/// The cells of a head's variables in rising order.
pub(crate) fn rising_cells(set: VarSet, head: &[usize], cells: &Cells) -> Answer
    requires long { length cells.now ≡ length head.now }
    requires few { length set ≤ CELLS }
    requires within { (x : ℕ) → member x set ≡ true → member x head.now ≡ true }
    ensures { result ≡ map (cell_of_variable head.now cells.now) set }
{
    let mut rest = set;
    let mut answer = Answer::new(0);
    while let Some(variable) = rest.pop() {
        answer.push(cells.as_slice()[place_of(head, variable)]);
    }
    answer
}

/// Whether a variable that occurs in a head more than once has the same cell each time.
fn agrees(head: &[usize], cells: &Cells) -> bool
    requires long { length cells.now ≡ length head.now }
    ensures { result ≡ true ↔ map (cell_of_variable head.now cells.now) head.now ≡ cells.now }
{
    let cells = cells.as_slice();
    for at in 0..head.len() {
        if cells[at] != cells[place_of(head, head[at])] {
            return false;
        }
    }
    true
}

/// Whether cells in a head's order are those of an answer.
pub(crate) fn has_cells<L: Ledger>(
    reducts: &Reducts,
    head: &[usize],
    cells: &Cells,
    listing: &mut Tally<L>,
) -> bool
    requires long { length cells.now ≡ length head.now }
    requires few { length reducts.now.tree.head ≤ CELLS }
    requires within { (x : ℕ) → member x reducts.now.tree.head ≡ true → member x head.now ≡ true }
    ensures exact { result ≡ true ↔ AreCellsOfAnswer reducts.now head.now cells.now }
    ensures counted { listing.new ≤ listing.old + reducts.now.tree.leaves }
{
    let answer = rising_cells(reducts.tree().head(), head, cells);
    agrees(head, cells) && djq_enumeration::has(reducts, &answer, listing)
}
