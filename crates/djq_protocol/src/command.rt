use djq_model::{Name, Names, Query, Row, Types};

/// A command, as a line spells it.
#[derive(Debug, Drop)]
pub enum Command {
    /// `rel NAME TYPE ..`: a new relation.
    Rel {
        /// Its name.
        name: Name,
        /// The types of its columns.
        types: Types,
    },
    /// `add NAME VALUE ..`: a row is inserted into a relation.
    Add {
        /// The relation.
        name: Name,
        /// The row.
        row: Row,
    },
    /// `del NAME VALUE ..`: a row is deleted from a relation.
    Del {
        /// The relation.
        name: Name,
        /// The row.
        row: Row,
    },
    /// `query NAME(..) <- ..`: a query is registered.
    Query {
        /// The query.
        query: Query,
    },
    /// `union NAME QUERY QUERY ..`: the union of some queries is registered.
    Union {
        /// The union.
        name: Name,
        /// Its members, two at least.
        members: Names,
    },
    /// `drop QUERY`: a query is removed.
    Drop {
        /// The query.
        query: Name,
    },
    /// `open CURSOR QUERY`: a cursor over a query's answers.
    Open {
        /// The cursor.
        cursor: Name,
        /// The query.
        query: Name,
    },
    /// `next CURSOR COUNT`: further answers, as many at most.
    Next {
        /// The cursor.
        cursor: Name,
        /// The most answers.
        count: u32,
    },
    /// `close CURSOR`: a cursor is removed.
    Close {
        /// The cursor.
        cursor: Name,
    },
    /// `has QUERY VALUE ..`: whether a tuple is an answer.
    Has {
        /// The query.
        query: Name,
        /// The tuple.
        row: Row,
    },
    /// `watch QUERY`: each change of the query's answers is reported to the session.
    Watch {
        /// The query.
        query: Name,
    },
    /// `unwatch QUERY`: changes are reported to it no more.
    Unwatch {
        /// The query.
        query: Name,
    },
    /// `explain QUERY`: the join tree of a query.
    Explain {
        /// The query.
        query: Name,
    },
    /// `shape QUERY`: whether an update's cost has a bound that doesn't depend on the rows.
    Shape {
        /// The query.
        query: Name,
    },
    /// `batch`: lines that insert and delete rows are held from now on.
    Batch,
    /// `done [COUNT]`: the lines that are held are carried out as one change.
    Done {
        /// The number of held lines that it gives, if it gives one; at most
        /// [`LAST_COUNT`](crate::limits::LAST_COUNT), as which each larger one is read.
        count: Option<u32>,
    },
    /// `abandon`: they are dropped.
    Abandon,
    /// `quit`: the session ends.
    Quit,
    /// `stop`: the whole server ends.
    Stop,
}
