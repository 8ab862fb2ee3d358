//! What stays of the queries that a change of rows doesn't touch.
ghost use Rattle.djq_live_query.specs.Staying.{LiveStays, CamePasses, CameAllPasses, WentPasses};

/// If no rows change, each registered query is live over the later catalog, however many texts and
/// relations more there are, and its cursors are unchanged.
pub fn live_stays()
    ensures { LiveStays }
{}

/// If a row was inserted, the same holds of each query that doesn't read its relation.
pub fn other_queries_stay()
    ensures { CamePasses }
{}

/// If many rows were inserted into a relation, likewise.
pub fn came_all_passes()
    ensures { CameAllPasses }
{}

/// If a row was deleted, likewise.
pub fn went_passes()
    ensures { WentPasses }
{}
