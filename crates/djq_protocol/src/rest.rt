use djq_hypergraph::{Edges, Names};

/// What a reduction leaves of a query's hypergraph, which shows why the query isn't admitted.
#[derive(Debug, Drop)]
pub struct NamedRest {
    /// The edges that are left, each a set of variables by number.
    pub edges: Edges,
    /// The name of each variable of the query.
    pub names: Names,
}

/// The outcome of `query` on a query that has no fault.
#[derive(Debug, Drop)]
pub enum QueryOutcome {
    /// It is free-connex, and registered. Each of its answers costs at most so many lookups and
    /// links, and so does the end.
    Registered(u64),
    /// Its hypergraph has no join tree, as a rest of it shows.
    Cyclic(NamedRest),
    /// Its hypergraph has a join tree, but none with the head as its root, as a rest of the two
    /// shows.
    NotConnex(NamedRest),
}
