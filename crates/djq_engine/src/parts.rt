use djq_database::Catalog;
use djq_enumeration::DeltaLog;
use djq_live_query::LiveQuery;
use djq_reach::QueryPlaces;
use std::alloc::Global;

/// The parts of an engine.
#[derive(Drop)]
pub struct Parts {
    pub alloc: Global,
    /// The relations with their rows, and the texts.
    pub catalog: Catalog,
    /// For each relation the places of the queries that read it, in order of registration.
    pub readers: Vec<QueryPlaces>,
    /// A place has its query until that is dropped, and is vacant then.
    pub queries: Vec<Option<LiveQuery>>,
    /// For each place how many sessions watch its query.
    pub watchers: Vec<u32>,
    /// For each place how the answers of its query changed last, while it was watched.
    pub logs: Vec<DeltaLog>,
    /// The places of the registered queries, in order of registration.
    pub order: QueryPlaces,
    /// The number of accepted changes of rows.
    pub seq: u64,
    /// The places of the queries that the last one affected, in order of registration. There is room
    /// for all of them.
    pub affected: Vec<usize>,
}
