ghost use Rattle.std.specs.Prelude.{◌≡◌, [], ◌∷◌, IsSome, IfOk};
ghost use Rattle.djq_protocol.specs.Variables.{constants_of};
ghost use Rattle.djq_database.specs.Cells.{HaveCells};
ghost use Rattle.djq_live_query.specs.Live.{IsLive};
ghost use Rattle.djq_live_query.specs.Member.{HaveQueries};
ghost use Rattle.djq_united.specs.Slots.{slot_at};
ghost use Rattle.djq_united.specs.United.{IsUnited, AreKept};

use djq_binder::{plan_query, query_fault_of};
use djq_counters::{Blanks, Ledgers, Listing, Steps, Tally};
use djq_database::Catalog;
use djq_index::CELLS;
use djq_live_query::{LiveQuery, Next};
use djq_model::{Atom, ColumnType, Name, NoMem, Query, Row, Sequence, Term, Types, Value};
use djq_reduct::{Answer, Cells};
use djq_united::{LiveUnion, heads_differ};
use std::alloc::Global;
use std::marker::Brand;
use std::test::Fail;

/// A relation `e` of two columns of integers, with these rows.
fn fill<L: Ledgers>(
    alloc: Global,
    catalog: &mut Catalog,
    rows: &[[i64; 2]],
    steps: &mut Steps<L>,
) -> Result<(), Fail> {
    let mut types = Types::new(alloc);
    types.push(ColumnType::Int)?;
    types.push(ColumnType::Int)?;
    let id = catalog.relation(Name::new(b"e"), types)?;
    for numbers in rows {
        let mut row = Row::new(alloc);
        row.push(Value::Int(numbers[0]))?;
        row.push(Value::Int(numbers[1]))?;
        if id.at >= catalog.len() || row.len() > CELLS || !catalog.suits(id, row.as_slice()) {
            return Err(NoMem)?;
        }
        let mut cells = Cells::new(0);
        catalog.intern_cells(row.as_slice(), &mut cells)?;
        let _ = catalog.add_row(id, cells.as_slice(), &mut steps.rows)?;
    }
    Ok(())
}

/// The query `q(x,y)` over `e` of these two variables.
fn over_edges(alloc: Global, first: u8, second: u8) -> Result<Query, NoMem>
    ensures { IfOk result (λ q. constants_of q ≡ []) }
{
    let mut head = Sequence::new(alloc);
    head.push(Name::new(b"x"))?;
    head.push(Name::new(b"y"))?;
    let mut terms = Sequence::new(alloc);
    terms.push(Term::Variable(Name::new(&[first])))?;
    terms.push(Term::Variable(Name::new(&[second])))?;
    let mut atoms = Sequence::new(alloc);
    atoms.push(Atom {
        relation: Name::new(b"e"),
        terms,
    })?;
    Ok(Query {
        name: Name::new(b"q"),
        head,
        atoms,
        comparisons: Sequence::new(alloc),
    })
}

/// Registers a query; one that can't be asked or planned stops the test.
fn build<L: Ledgers>(
    alloc: Global,
    catalog: &Catalog,
    query: Query,
    steps: &mut Steps<L>,
) -> Result<LiveQuery, Fail>
    requires { HaveCells catalog.now.texts (constants_of query) }
    ensures { IfOk result (λ l. IsLive catalog.now l) }
{
    if query.atoms.is_empty() || query_fault_of(catalog, &query).is_some() {
        return Err(NoMem)?;
    }
    let planned = plan_query(alloc, catalog, &query)?;
    Ok(LiveQuery::build(alloc, query, planned, catalog, steps)?)
}

/// The union of the queries in the first two places; one of queries that differ stops the test.
fn joined(alloc: Global, queries: &[Option<LiveQuery>]) -> Result<LiveUnion, Fail>
    requires { HaveQueries queries.now (0 ∷ 1 ∷ []) }
    ensures { IfOk result (λ u. IsUnited queries.now u) }
{
    let mut members = Sequence::new(alloc);
    members.push(0)?;
    members.push(1)?;
    if heads_differ(queries, members.as_slice()) {
        return Err(NoMem)?;
    }
    Ok(LiveUnion::new(alloc, Name::new(b"u"), members))
}

/// Reads a cursor: a further answer of two cells, if there is one.
fn next_pair<L: Ledgers>(
    union: &mut LiveUnion,
    catalog: &Catalog,
    queries: &[Option<LiveQuery>],
    slot: usize,
    listing: &mut Tally<Listing<L>>,
) -> Option<(u64, u64)>
    requires kept { AreKept catalog.now queries.now }
    requires united { IsUnited queries.now union.old }
    requires there { IsSome (slot_at union.old.cursors slot) }
    ensures united { IsUnited queries.now union.new }
    ensures there { IsSome (slot_at union.new.cursors slot) }
{
    let mut answer = Answer::new(0);
    match union.next(slot, queries, &mut answer, listing) {
        Next::Given => pair_of(&answer),
        _ => None,
    }
}

/// Two cells.
fn pair_of(answer: &Answer) -> Option<(u64, u64)> {
    let cells = answer.as_slice();
    if cells.len() != 2 {
        return None;
    }
    Some((cells[0], cells[1]))
}

/// What a cursor gives.
fn listed<L: Ledgers>(
    alloc: Global,
    union: &mut LiveUnion,
    catalog: &Catalog,
    queries: &[Option<LiveQuery>],
    listing: &mut Tally<Listing<L>>,
) -> Result<Vec<(u64, u64)>, NoMem>
    requires kept { AreKept catalog.now queries.now }
    requires united { IsUnited queries.now union.old }
{
    let slot = union.open()?;
    let mut given = Vec::new(alloc);
    for _call in 0..9 {
        match next_pair(union, catalog, queries, slot, listing) {
            Some(pair) => given.push(pair)?,
            None => return Ok(given),
        }
    }
    Ok(given)
}

/// What the union of two queries gives.
fn list_both<L: Ledgers>(
    alloc: Global,
    catalog: &Catalog,
    forth: LiveQuery,
    back: LiveQuery,
    listing: &mut Tally<Listing<L>>,
) -> Result<Vec<(u64, u64)>, Fail>
    requires forth { IsLive catalog.now forth }
    requires back { IsLive catalog.now back }
{
    let queries = [Some(forth), Some(back)];
    let mut union = joined(alloc, &queries)?;
    Ok(listed(alloc, &mut union, catalog, &queries, listing)?)
}

/// Registers `q(x,y)` over `e` of these two variables.
fn register<L: Ledgers>(
    alloc: Global,
    catalog: &Catalog,
    first: u8,
    second: u8,
    steps: &mut Steps<L>,
) -> Result<LiveQuery, Fail>
    ensures { IfOk result (λ l. IsLive catalog.now l) }
{
    let query = over_edges(alloc, first, second)?;
    build(alloc, catalog, query, steps)
}

/// What the union of `a(x,y) <- e(x,y)` and `b(x,y) <- e(y,x)` gives.
fn both_ways<L: Ledgers>(
    alloc: Global,
    catalog: &Catalog,
    steps: &mut Steps<L>,
) -> Result<Vec<(u64, u64)>, Fail> {
    let forth = register(alloc, catalog, b'x', b'y', steps)?;
    let back = register(alloc, catalog, b'y', b'x', steps)?;
    list_both(alloc, catalog, forth, back, &mut steps.listing)
}

/// What it gives over some rows.
fn given<L: Ledgers>(
    rt: &HostRuntime,
    blanks: Blanks,
    rows: &[[i64; 2]],
) -> Result<Vec<(u64, u64)>, Fail>
    requires listing { blanks.listing.name ≡ L.listing }
    requires update { blanks.update.name ≡ L.update }
    requires rows { blanks.rows.name ≡ L.rows }
{
    let mut steps = Steps::<L>::new(rt, blanks);
    let mut catalog = Catalog::new(rt.alloc())?;
    fill(rt.alloc(), &mut catalog, rows, &mut steps)?;
    both_ways(rt.alloc(), &catalog, &mut steps)
}

/// The members have other numbers for their variables, and share two answers.
#[test]
fn gives_each_answer_once(rt: HostRuntime) -> Result<(), Fail> {
    let pairs = given::<Brand>(&rt, Blanks::new(&rt), &[[1, 2], [2, 1], [3, 4]])?;
    assert!(rt; pairs.len() == 4);
    for pair in [(1, 2), (2, 1), (3, 4), (4, 3)] {
        assert!(rt; pairs.contains(&pair));
    }
    Ok(())
}
