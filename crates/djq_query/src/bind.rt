ghost use Rattle.std.specs.Prelude.{◌≡◌, ℕ, ◌≤◌, ◌==◌, position, length, IfOk};
ghost use Rattle.std.specs.List.{list_any};
ghost use Rattle.djq_hypergraph.specs.Hypergraph.{member};
ghost use Rattle.djq_query.specs.Numbered.{is_number};
ghost use Rattle.djq_query.specs.Pattern.{bound, slot_of, test_of, tests_of};
ghost use Rattle.djq_index.specs.declared.cells.TheConstants.{CELLS};

use crate::numbered::{NumberedAtom, NumberedComparison, NumberedTerm};
use crate::pattern::{Pattern, Slot, Slots, Test, Tests};
use djq_hypergraph::VarSet;
use djq_index::Cells;
use djq_model::NoMem;
use std::alloc::Global;

/// The variables of a set, in rising order.
fn members(label: VarSet) -> Cells
    requires { length label ≤ CELLS }
    ensures { result ≡ label }
{
    let mut members = Cells::new(0);
    let mut rest = label;
    'rest: while let Some(variable) = rest.pop() {
        members.push(variable as u64);
    }
    members
}

/// The place of a variable among these, if it is one of them.
fn find(members: &[u64], variable: u64) -> Option<usize>
    ensures { result ≡ position (λ y. y == variable) members.now }
{
    members.iter().position(|member| *member == variable)
}

/// The slot of a column: the place of a variable, or the cell of a constant.
fn slot_of(members: &[u64], term: &NumberedTerm, cell: u64) -> Slot
    ensures { result ≡ slot_of members.now term.now cell }
{
    match term {
        NumberedTerm::Variable(number) => {
            Slot::Place(find(members, *number as u64).unwrap_or(members.len()))
        }
        NumberedTerm::Constant(_) => Slot::Cell(cell),
    }
}

/// The slot of each column.
fn slots_of(
    alloc: Global,
    members: &[u64],
    terms: &[NumberedTerm],
    cells: &[u64],
) -> Result<Slots, NoMem>
    requires { length cells.now ≡ length terms.now }
    ensures { IfOk result (λ slots. slots.items ≡ bound members.now terms.now cells.now) }
{
    let mut slots = Slots::new(alloc);
    'terms: for i in 0..terms.len() {
        slots.push(slot_of(members, &terms[i], cells[i]))?;
    }
    Ok(slots)
}

/// The tests that comparisons are for a tuple over these variables.
fn tests_of(
    alloc: Global,
    members: &[u64],
    comparisons: &[NumberedComparison],
    constants: &[u64],
) -> Result<Tests, NoMem>
    requires { length constants.now ≡ length comparisons.now }
    ensures { IfOk result (λ tests. tests.items ≡ tests_of members.now comparisons.now constants.now) }
{
    let mut tests = Tests::new(alloc);
    'comparisons: for i in 0..comparisons.len() {
        let comparison = &comparisons[i];
        if let Some(place) = find(members, comparison.variable as u64) {
            tests.push(Test {
                place,
                operator: comparison.operator,
                cell: constants[i],
            })?;
        }
    }
    Ok(tests)
}

impl NumberedAtom {
    /// The atom with its constants bound to cells, and the body's comparisons of its variables as
    /// tests. The label is the set of its variables; there is a cell for each term, which is read
    /// if the term is a constant, and one for the constant of each comparison.
    pub fn bind(
        &self,
        alloc: Global,
        label: VarSet,
        cells: &[u64],
        comparisons: &[NumberedComparison],
        constants: &[u64],
    ) -> Result<Pattern, NoMem>
        requires label { (x : ℕ) → member x label ≡ list_any (is_number x) self.now.terms }
        requires narrow { length label ≤ CELLS }
        requires cells { length cells.now ≡ length self.now.terms }
        requires constants { length constants.now ≡ length comparisons.now }
        ensures width { IfOk result (λ p. p.width ≡ length label) }
        ensures slots { IfOk result (λ p. p.slots ≡ bound label self.now.terms cells.now) }
        ensures tests { IfOk result (λ p. p.tests ≡ tests_of label comparisons.now constants.now) }
    {
        label.rises();
        let members = members(label);
        let slots = slots_of(alloc, members.as_slice(), self.terms.as_slice(), cells)?;
        let tests = tests_of(alloc, members.as_slice(), comparisons, constants)?;
        Ok(Pattern::new(label.len(), slots, tests))
    }
}
