//! Settles the logs of watched queries: drops the lines that cancel out.
ghost use Rattle.std.specs.Prelude.{◌≡◌, ◌<◌, ◌&&◌, ℕ, true, false, All, length};
ghost use Rattle.djq_reach.specs.Places.{is_reader, log_at, watched_at};
ghost use Rattle.djq_reach.specs.Tending.{HaveLogs};
ghost use Rattle.djq_reach.specs.Grouping.{reached};
ghost use Rattle.djq_queries.specs.Settling.{HasDistinctLines, LogSettles, SettlesLogs};

use crate::gone::places_of;
use djq_enumeration::DeltaLog;
use djq_reach::{Group, QueryPlaces, is_watched};

/// Settles a log if that is wanted.
fn settle_if(log: &mut DeltaLog, wanted: bool)
    requires { wanted ≡ true → HasDistinctLines log.old }
    ensures settled { wanted ≡ true → LogSettles log.old log.new }
    ensures same { wanted ≡ false → log.new ≡ log.old }
{
    if wanted && !log.lost() {
        log.settle();
    }
}

/// Settles the logs of those of the queries in these places that are watched.
fn settle_watched(logs: &mut Vec<DeltaLog>, watchers: &[u32], places: &[usize])
    requires logged { HaveLogs places.now logs.old.items }
    requires watched { length watchers.now ≡ length logs.old.items }
    requires distinct { (i : ℕ) → (is_reader places.now i && watched_at watchers.now i) ≡ true
        → HasDistinctLines (log_at logs.old.items i) }
    ensures { SettlesLogs (λ i. is_reader places.now i && watched_at watchers.now i)
        logs.old.items logs.new.items }
{
    for nth in 0..places.len() {
        let at = places[nth];
        let wanted = is_watched(watchers, at);
        settle_if(&mut logs[at], wanted);
    }
}

/// Settles the logs of the watched queries that read a relation of the groups. A query that reads several of them
/// is settled several times, which is the same as once.
pub fn settle_logs(
    logs: &mut Vec<DeltaLog>,
    watchers: &[u32],
    readers: &[QueryPlaces],
    groups: &[Group],
)
    requires within { All (λ g. g.relation.at < length readers.now) groups.now }
    requires logged { HaveLogs (reached readers.now groups.now) logs.old.items }
    requires watched { length watchers.now ≡ length logs.old.items }
    requires distinct { (i : ℕ) → (is_reader (reached readers.now groups.now) i && watched_at watchers.now i) ≡ true
        → HasDistinctLines (log_at logs.old.items i) }
    ensures { SettlesLogs (λ i. is_reader (reached readers.now groups.now) i && watched_at watchers.now i)
        logs.old.items logs.new.items }
{
    for nth in 0..groups.len() {
        settle_watched(logs, watchers, places_of(readers, &groups[nth]));
    }
}
