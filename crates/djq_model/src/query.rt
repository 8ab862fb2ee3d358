use crate::name::Name;
use crate::sequence::Sequence;
use crate::value::Value;

/// A term of an atom, for one of its columns: a variable, a hole or a constant.
#[derive(Debug, Drop)]
pub enum Term {
    /// A variable, by its name.
    Variable(Name),
    /// A variable of its own, without a name.
    Hole,
    /// A constant.
    Constant(Value),
}

/// The terms of an atom, one for each column.
pub type Terms = Sequence<Term>;

/// An atom of a query's body: a relation, and a term for each of its columns.
#[derive(Debug, Drop)]
pub struct Atom {
    /// The relation's name.
    pub relation: Name,
    /// The terms.
    pub terms: Terms,
}

/// The atoms of a query's body, in the order in which they are written.
pub type Atoms = Sequence<Atom>;

/// A list of names, as a query's head.
pub type Names = Sequence<Name>;

/// The order or equality that a comparison requires between its variable and its constant.
#[derive(Clone, Copy, Debug, PartialEq, Eq)]
pub enum Operator {
    /// `<`
    Less,
    /// `<=`
    LessOrEqual,
    /// `>`
    Greater,
    /// `>=`
    GreaterOrEqual,
    /// `=`
    Equal,
    /// `!=`
    NotEqual,
}

/// A comparison of a variable with a constant.
#[derive(Debug, Drop)]
pub struct Comparison {
    /// The variable, by its name.
    pub variable: Name,
    /// The order or equality that it requires.
    pub operator: Operator,
    /// The constant.
    pub constant: Value,
    /// The number of atoms before it in the body.
    pub behind: usize,
}

/// The comparisons of a query's body, in the order in which they are written.
pub type Comparisons = Sequence<Comparison>;

/// A conjunctive query: `name(head) <- atoms and comparisons`.
#[derive(Debug, Drop)]
pub struct Query {
    /// Its name.
    pub name: Name,
    /// The variables whose values make an answer, in the order of an answer's cells.
    pub head: Names,
    /// The atoms that an assignment has to satisfy.
    pub atoms: Atoms,
    /// The comparisons that have to hold of it.
    pub comparisons: Comparisons,
}
