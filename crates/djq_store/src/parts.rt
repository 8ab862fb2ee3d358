use crate::joined::Joined;
use djq_engine::Engine;
use std::alloc::Global;

/// The parts of a store.
#[derive(Drop)]
pub struct Parts {
    pub alloc: Global,
    /// The relations, and the queries in their places.
    pub engine: Engine,
    /// The unions, each in a slot. A slot has its union until that is dropped, and is vacant then.
    pub unions: Vec<Option<Joined>>,
    /// The places of all that is registered, in order of registration: a query's place in the engine, and a
    /// union's slot after those of queries. There is room for all.
    pub order: Vec<usize>,
    /// For each place of a query how many sessions watch it.
    pub sessions: Vec<u32>,
    /// The places of those that the last accepted change affected, in order of registration. There is room for
    /// all.
    pub affected: Vec<usize>,
}
