/// Names a registered query of an engine, as long as that is registered.
#[derive(Clone, Copy, Debug, PartialEq, Eq)]
pub struct QueryId {
    /// Its place among the queries.
    pub at: usize,
}

/// Names a cursor of an engine, as long as it isn't closed.
#[derive(Clone, Copy, Debug, PartialEq, Eq)]
pub struct CursorId {
    /// The query that it is over.
    pub query: QueryId,
    /// Which of that query's cursors.
    pub cursor: usize,
}
