//! The places of the queries.
ghost use Rattle.std.specs.Prelude.{◌≡◌, ◌<◌, length};
ghost use Rattle.djq_reach.specs.Places.{watched_at};

/// Whether a session watches the query in a place.
pub fn is_watched(watchers: &[u32], at: usize) -> bool
    requires { at < length watchers.now }
    ensures { result ≡ watched_at watchers.now at }
{
    watchers[at] > 0
}
