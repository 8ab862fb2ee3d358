//! The patterns of a query's atoms.
ghost use Rattle.std.specs.Prelude.{◌≡◌, ℕ, ◌≤◌, ◌<◌, IfOk, length};
ghost use Rattle.std.specs.List.{list_any};
ghost use Rattle.djq_hypergraph.specs.Hypergraph.{member};
ghost use Rattle.djq_tree.specs.Labels.{label_at};
ghost use Rattle.djq_query.specs.Numbered.{is_number};
ghost use Rattle.djq_database.specs.Cells.{cell_for, cells_of, HasCell, HaveCells};
ghost use Rattle.djq_binder.specs.Asked.{HasConstant, HaveConstants, constants_in};
ghost use Rattle.djq_leaves.specs.Building.{ArePatternsOf, AreBindable};
ghost use Rattle.djq_leaves.specs.Leaves.{AreCellsOfTerms, IsCellOf, IsPatternOf};
ghost use Rattle.djq_index.specs.declared.cells.TheConstants.{CELLS};

use djq_database::Catalog;
use djq_hypergraph::VarSet;
use djq_model::{NoMem, Value};
use djq_query::{NumberedAtom, NumberedComparison, NumberedTerm, Pattern};
use djq_tree::Tree;
use std::alloc::Global;

/// The cell of a value that has one.
fn value_cell(catalog: &Catalog, value: &Value) -> u64
    requires { HasCell catalog.now.texts value.now }
    ensures { result ≡ cell_for catalog.now.texts value.now }
{
    match catalog.cell(value) {
        Some(cell) => cell,
        None => unreachable!(),
    }
}

/// The cell of a constant, which has one; of a variable any.
fn constant_cell(catalog: &Catalog, term: &NumberedTerm) -> u64
    requires { HasConstant catalog.now.texts term.now }
    ensures { IsCellOf catalog.now.texts term.now result }
{
    match term {
        NumberedTerm::Variable(_) => 0,
        NumberedTerm::Constant(value) => value_cell(catalog, value),
    }
}

/// A cell for each term, its own if the term is a constant.
fn constant_cells(
    alloc: Global,
    catalog: &Catalog,
    terms: &[NumberedTerm],
) -> Result<Vec<u64>, NoMem>
    requires { HaveConstants catalog.now.texts terms.now }
    ensures { IfOk result (λ cells. AreCellsOfTerms catalog.now.texts terms.now cells.items) }
{
    let mut cells = Vec::new(alloc);
    'terms: for i in 0..terms.len() {
        cells.push(constant_cell(catalog, &terms[i]))?;
    }
    Ok(cells)
}

/// The cells of the constants of comparisons.
fn compared_cells(
    alloc: Global,
    catalog: &Catalog,
    comparisons: &[NumberedComparison],
) -> Result<Vec<u64>, NoMem>
    requires { HaveCells catalog.now.texts (constants_in comparisons.now) }
    ensures { IfOk result (λ cells. cells.items ≡ cells_of catalog.now.texts
        (constants_in comparisons.now)) }
{
    let mut cells = Vec::new(alloc);
    'comparisons: for i in 0..comparisons.len() {
        cells.push(value_cell(catalog, &comparisons[i].constant))?;
    }
    Ok(cells)
}

/// The pattern of an atom whose constants have cells, over the set of its variables, with the
/// comparisons of these.
fn bind_atom(
    alloc: Global,
    catalog: &Catalog,
    atom: &NumberedAtom,
    label: VarSet,
    comparisons: &[NumberedComparison],
    compared: &[u64],
) -> Result<Pattern, NoMem>
    requires constants { HaveConstants catalog.now.texts atom.now.terms }
    requires label { (x : ℕ) → member x label ≡ list_any (is_number x) atom.now.terms }
    requires narrow { length label ≤ CELLS }
    requires compared { compared.now ≡ cells_of catalog.now.texts (constants_in comparisons.now) }
    ensures { IfOk result (IsPatternOf catalog.now.texts label comparisons.now atom.now) }
{
    let cells = constant_cells(alloc, catalog, atom.terms.as_slice())?;
    atom.bind(alloc, label, &cells, comparisons, compared)
}

/// The patterns of atoms over the leaves' labels, each with the comparisons of its variables. The
/// constants of atoms and comparisons have cells.
pub fn bind_atoms(
    alloc: Global,
    catalog: &Catalog,
    atoms: &[NumberedAtom],
    comparisons: &[NumberedComparison],
    tree: &Tree,
) -> Result<Vec<Pattern>, NoMem>
    requires { AreBindable catalog.now.texts tree.now comparisons.now atoms.now }
    ensures long { IfOk result (λ ps. length ps.items ≡ length atoms.now) }
    ensures patterns { IfOk result (λ ps. ArePatternsOf catalog.now.texts tree.now.labels
        comparisons.now atoms.now ps.items) }
{
    let compared = compared_cells(alloc, catalog, comparisons)?;
    let mut patterns = Vec::new(alloc);
    'atoms: for j in 0..atoms.len() {
        let label = tree.label(j);
        patterns.push(bind_atom(alloc, catalog, &atoms[j], label, comparisons, &compared)?)?;
    }
    Ok(patterns)
}
