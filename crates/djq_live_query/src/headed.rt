ghost use Rattle.std.specs.Prelude.{◌≡◌, ◌<◌, length, IfOk};
ghost use Rattle.djq_query.specs.Numbered.{IsWithin};
ghost use Rattle.djq_live_query.specs.Headed.{head_cell, head_cells};

use crate::lookup::column_at;
use djq_hypergraph::VarSet;
use djq_model::{ColumnType, NoMem};
use djq_query::{NumberedAtom, NumberedQuery, Variable};
use djq_reduct::column_of;
use std::alloc::Global;
use std::marker::Model;

/// What a place of the head shows: the type of its values, and the place of their cells in an answer of
/// the tree.
#[derive(Clone, Copy)]
pub(crate) struct HeadCell {
    pub(crate) column: ColumnType,
    pub(crate) at: usize,
}

/// A query by number, with what its head shows, which is found once, since each value of each answer
/// is read by it.
#[derive(Drop)]
pub(crate) struct HeadedQuery {
    numbered: NumberedQuery,
    cells: Vec<HeadCell>,
}

impl Model for HeadedQuery {
    ghost use Rattle.djq_query.specs.Numbered.{Numbered};

    ghost Value = { Numbered };

    ghost view = { λ h. h.numbered };

    ghost use Rattle.std.specs.Prelude.{◌≡◌};
    ghost use Rattle.djq_live_query.specs.Headed.{head_cells};

    ghost invariant = { λ h. h.cells.items ≡ head_cells h.numbered };
}

/// What a variable's place in a head shows, if these are the head's variables.
fn head_cell(variables: &[Variable], set: VarSet, variable: usize) -> HeadCell
    requires { variable < length variables.now }
    ensures { result ≡ head_cell variables.now set variable }
{
    HeadCell {
        column: column_at(variables, variable),
        at: column_of(set, variable),
    }
}

/// What the places of a query's head show.
fn head_cells(alloc: Global, numbered: &NumberedQuery) -> Result<Vec<HeadCell>, NoMem>
    ensures { IfOk result (λ v. v.items ≡ head_cells numbered.now) }
{
    numbered.within();
    let set = numbered.head_variables();
    set.rises();
    let variables = numbered.variables();
    let head = numbered.head();
    let mut cells = Vec::new(alloc);
    for at in 0..head.len() {
        cells.push(head_cell(variables, set, head[at]))?;
    }
    Ok(cells)
}

impl HeadedQuery {
    /// A query by number, once it is found what its head shows. It fails only out of memory.
    pub(crate) fn of(alloc: Global, numbered: NumberedQuery) -> Result<HeadedQuery, NoMem>
        ensures { IfOk result (λ h. h ≡ numbered) }
    {
        let cells = head_cells(alloc, &numbered)?;
        Ok(HeadedQuery { numbered, cells })
    }

    /// What the places of its head show.
    pub(crate) fn cells(&self) -> &[HeadCell]
        ensures { result.now ≡ head_cells self.now }
    {
        &self.cells
    }

    /// The numbers of the head's variables, in the head's order.
    pub(crate) fn head(&self) -> &[usize]
        ensures { result.now ≡ self.now.head }
    {
        self.numbered.head()
    }

    /// The atoms of the body.
    pub(crate) fn atoms(&self) -> &[NumberedAtom]
        ensures { result.now ≡ self.now.atoms }
    {
        self.numbered.atoms()
    }

    /// The variables, each at its number.
    pub(crate) fn variables(&self) -> &[Variable]
        ensures { result.now ≡ self.now.variables }
    {
        self.numbered.variables()
    }

    /// The law that each number is that of a variable, and that there are few of them. It does nothing.
    pub(crate) fn within(&self)
        ensures { IsWithin self.now }
    {
        self.numbered.within();
    }
}
