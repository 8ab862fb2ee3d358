ghost use Rattle.std.specs.Prelude.{
  ◌≡◌,
  ◌↔◌,
  ◌⊎◌,
  ◌+◌,
  ◌<◌,
  ◌≤◌,
  ℕ,
  List,
  None,
  IfOk,
  IsSomeAnd,
  Contains,
  length,
  slice_get,
};
ghost use Rattle.djq_live_query.specs.Member.{head_types, query_at, queries_at, HaveQueries, AreAlike};
ghost use Rattle.djq_gains.specs.Gains.{AtFirstMember, told_of_member, changes_in, count_in};
ghost use Rattle.djq_gains.specs.Gathered.{Mark, Stand};
ghost use Rattle.djq_gains.specs.Gathering.{is_among, HasMarkBy, GathersGains};
ghost use Rattle.djq_index.specs.declared.cells.TheConstants.{CELLS};

use crate::gains::Gains;
use djq_engine::{Cells, Engine, QueryId};
use djq_live_query::QueriesAt;
use djq_union::Members;
use std::alloc::{AllocError, Global};

/// Whether a place is among these.
fn is_among(places: &[usize], place: usize) -> bool
    ensures { result ≡ is_among places.now place }
{
    places.contains(&place)
}

/// Inserts the delta of the query in a place, as the nth one. It fails if that is lost, or out of
/// memory.
fn gather_from(
    engine: &Engine,
    place: usize,
    nth: usize,
    gains: &mut Gains,
) -> Result<(), AllocError>
    requires nth { nth < 8 }
    requires query { IsSomeAnd (query_at engine.now.places place)
        (λ l. length (head_types l) ≡ gains.old.width) }
    ensures width { gains.new.width ≡ gains.old.width }
    ensures told { IfOk result (λ _. told_of_member engine.now place ≡ None → ⊥) }
    ensures gathered { IfOk result (λ _. (m : Mark) (t : List ℕ) → Stand gains.new.gains m t
        ↔ (Stand gains.old.gains m t
        ⊎ HasMarkBy (engine.now.store).texts (changes_in engine.now place) nth m t)) }
    ensures few { IfOk result
        (λ _. length gains.new.gains ≤ length gains.old.gains + count_in engine.now place) }
{
    engine.laws();
    let id = QueryId { at: place };
    let Some(len) = engine.delta_len(id) else {
        return Err(AllocError);
    };
    let mut cells = Cells::new(0);
    for line in 0..len {
        let came = engine.delta_cells(id, line, &mut cells);
        gains.note(nth, came, &cells)?;
    }
    Ok(())
}

/// Gathers the different answers in the deltas of the members that were touched. It fails if one of
/// these is lost, or out of memory.
pub fn gather(
    alloc: Global,
    engine: &Engine,
    members: &[usize],
    touched: &[usize],
) -> Result<Gains, AllocError>
    requires queries { HaveQueries engine.now.places members.now }
    requires some { 0 < length members.now }
    requires alike { AreAlike (queries_at engine.now.places members.now) }
    ensures width { IfOk result (λ g. AtFirstMember engine.now members.now
        (λ l. g.width ≡ length l.query.head)) }
    ensures narrow { IfOk result (λ g. g.width ≤ CELLS) }
    ensures gathers { IfOk result (λ g. GathersGains engine.now members.now touched.now g.gains) }
{
    engine.laws();
    let group = QueriesAt {
        queries: engine.places(),
        places: members,
    };
    let mut gains = Gains::new(alloc, group.member(0).width())?;
    for nth in 0..members.len() {
        if is_among(touched, members[nth]) {
            gather_from(engine, members[nth], nth, &mut gains)?;
        }
    }
    Ok(gains)
}
