ghost use Rattle.std.specs.Prelude.{◌≡◌};
ghost use Rattle.djq_query.specs.Numbered.{IsWithin};

use djq_model::{ColumnType, Name, Operator, Sequence, Value};
use std::marker::Model;

/// A variable of a query: its name, or none for a hole, and the type of its columns.
#[derive(Clone, Copy, Debug)]
pub struct Variable {
    /// Its name.
    pub name: Option<Name>,
    /// The type of its columns.
    pub column: ColumnType,
}

/// A column of an atom.
#[derive(Debug, Drop)]
pub enum NumberedTerm {
    /// A variable or a hole, by its number.
    Variable(usize),
    /// A constant.
    Constant(Value),
}

/// An atom over a relation by number, with a term for each of its columns.
#[derive(Debug, Drop)]
pub struct NumberedAtom {
    /// The number of its relation.
    pub relation: usize,
    /// Its terms.
    pub terms: Sequence<NumberedTerm>,
}

/// A comparison of a variable, by its number, with a constant.
#[derive(Debug, Drop)]
pub struct NumberedComparison {
    /// The number of its variable.
    pub variable: usize,
    /// The comparison of the variable with the constant.
    pub operator: Operator,
    /// The constant.
    pub constant: Value,
}

/// A query whose variables are numbered from 0 in the order in which they first occur in an atom,
/// each hole one of its own. Every number is below that of the variables, and these are at most
/// [`VARIABLES`](djq_protocol::limits::VARIABLES).
#[derive(Debug, Drop)]
pub struct NumberedQuery {
    head: Sequence<usize>,
    atoms: Sequence<NumberedAtom>,
    comparisons: Sequence<NumberedComparison>,
    variables: Sequence<Variable>,
}

impl Model for NumberedQuery {
    ghost use Rattle.djq_query.specs.Numbered as spec;

    ghost Value = { spec.Numbered };

    ghost view = { λ q. record { head = q.head; atoms = q.atoms; comparisons = q.comparisons; variables = q.variables } };

    ghost invariant = { λ q. spec.IsWithin
        (record { head = q.head; atoms = q.atoms; comparisons = q.comparisons; variables = q.variables }) };
}

impl NumberedQuery {
    /// A query of these parts.
    pub(crate) fn new(
        head: Sequence<usize>,
        atoms: Sequence<NumberedAtom>,
        comparisons: Sequence<NumberedComparison>,
        variables: Sequence<Variable>,
    ) -> Self
        requires { IsWithin (record { head = head; atoms = atoms; comparisons = comparisons; variables = variables }) }
        ensures { result ≡ record { head = head; atoms = atoms; comparisons = comparisons; variables = variables } }
    {
        NumberedQuery {
            head,
            atoms,
            comparisons,
            variables,
        }
    }

    /// The numbers of the head's variables, in the head's order.
    pub fn head(&self) -> &[usize]
        ensures { result.now ≡ self.now.head }
    {
        self.head.as_slice()
    }

    /// The atoms of the body.
    pub fn atoms(&self) -> &[NumberedAtom]
        ensures { result.now ≡ self.now.atoms }
    {
        self.atoms.as_slice()
    }

    /// The comparisons of the body, in its order.
    pub fn comparisons(&self) -> &[NumberedComparison]
        ensures { result.now ≡ self.now.comparisons }
    {
        self.comparisons.as_slice()
    }

    /// The variables, each at its number.
    pub fn variables(&self) -> &[Variable]
        ensures { result.now ≡ self.now.variables }
    {
        self.variables.as_slice()
    }

    /// The law that each number is that of a variable, and that there are few of them. It does nothing.
    pub fn within(&self)
        ensures { IsWithin self.now }
    {
        let _head = &self.head;
    }
}
