//! Whether queries have answers of the same types.
ghost use Rattle.std.specs.Prelude.{◌≡◌, ⊤, Some, IsSomeAnd};
ghost use Rattle.std.specs.Bool.{OnFalse};
ghost use Rattle.std.specs.List.{AllByRecursion};
ghost use Rattle.djq_live_query.specs.Member.{query_at, queries_at, AreAlike};
ghost use Rattle.djq_united.specs.United.{heads_differ};

use djq_live_query::LiveQuery;

/// The query in a place.
fn query_in(queries: &[Option<LiveQuery>], place: usize) -> &LiveQuery
    requires { IsSomeAnd (query_at queries.now place) (λ l. ⊤) }
    ensures { query_at queries.now place ≡ Some result.now }
{
    match &queries[place] {
        Some(query) => query,
        None => unreachable!(),
    }
}

/// Whether the answers of some of the queries in these places have other types than those of the
/// first.
pub fn heads_differ(queries: &[Option<LiveQuery>], places: &[usize]) -> bool
    requires { AllByRecursion (λ k. IsSomeAnd (query_at queries.now k) (λ l. ⊤)) places.now }
    ensures differ { result ≡ heads_differ (queries_at queries.now places.now) }
    ensures alike { OnFalse result (AreAlike (queries_at queries.now places.now)) }
{
    let Some(first) = places.first() else {
        return false;
    };
    for place in places {
        if !query_in(queries, *first).is_alike(query_in(queries, *place)) {
            return true;
        }
    }
    false
}
