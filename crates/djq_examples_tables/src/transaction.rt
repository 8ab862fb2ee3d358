ghost use Rattle.std.specs.Prelude.{◌≡◌, All, IfOk};
ghost use Rattle.djq_transaction.specs.Net.{Suits};

use djq_counters::{Blanks, Ledgers, Steps, Tally};
use djq_database::{Catalog, RelationId, RowsRefusal};
use djq_model::{ColumnType, Name, Row, Types, Value};
use djq_protocol::limits::{COLUMNS, LAST_SEQ};
use djq_protocol::{DoneRefusal, LineRefusal, RefusedLine, Verb};
use djq_transaction::{
    Transaction, group_rows, insert_rows, judge_done, lines_lead, lines_leave, lines_settle,
    lines_suit, remove_rows, undo_rows,
};
use std::alloc::Global;
use std::marker::Brand;
use std::sync::ledger::Ledger;
use std::test::Fail;

/// A line: what it does to a row of two numbers.
type Line = (Verb, i64, i64);

/// A line that adds a copy of a row.
fn add(left: i64, right: i64) -> Line {
    (Verb::Add, left, right)
}

/// A line that deletes a copy of a row.
fn delete(left: i64, right: i64) -> Line {
    (Verb::Delete, left, right)
}

/// A catalog of one relation of such rows.
fn one_relation(alloc: Global) -> Result<Catalog, Fail> {
    let mut catalog = Catalog::new(alloc)?;
    let mut types = Types::new(alloc);
    types.push(ColumnType::Int)?;
    types.push(ColumnType::Int)?;
    if types.is_empty() || types.len() > COLUMNS {
        return Err(RowsRefusal::Full)?;
    }
    let _id = catalog.relation(Name::new(b"r"), types)?;
    Ok(catalog)
}

/// Holds a line of the relation, if its row suits it.
fn hold(
    alloc: Global,
    catalog: &Catalog,
    transaction: &mut Transaction,
    line: Line,
) -> Result<(), Fail>
    requires { All (Suits catalog.now.relations) transaction.old.lines }
    ensures { All (Suits catalog.now.relations) transaction.new.lines }
{
    let mut row = Row::new(alloc);
    row.push(Value::Int(line.1))?;
    row.push(Value::Int(line.2))?;
    let name = Name::new(b"r");
    let Some(id) = catalog.id(&name) else {
        return Ok(());
    };
    if catalog.suits(id, row.as_slice()) && transaction.has_room(0) {
        transaction.hold(line.0, name, row.as_slice(), &[])?;
    }
    Ok(())
}

/// A transaction that holds lines.
fn hold_all(alloc: Global, catalog: &Catalog, lines: &[Line]) -> Result<Transaction, Fail>
    ensures { IfOk result (λ t. All (Suits catalog.now.relations) t.lines) }
{
    let mut transaction = Transaction::new(alloc);
    for at in 0..lines.len() {
        hold(alloc, catalog, &mut transaction, lines[at])?;
    }
    Ok(transaction)
}

/// The cells of each row, and after them its copies.
fn rows<L: Ledger>(
    alloc: Global,
    catalog: &Catalog,
    tally: &mut Tally<L>,
) -> Result<Vec<u64>, Fail> {
    let mut all = Vec::new(alloc);
    let id = RelationId { at: 0 };
    if catalog.len() == 0 {
        return Ok(all);
    }
    let mut walk = catalog.rows(id, tally);
    for _row in 0..walk.len() {
        if let Some(cells) = walk.next(tally) {
            all.extend_from_slice(cells)?;
            all.push(catalog.copies(id, cells, tally) as u64)?;
        }
    }
    Ok(all)
}

/// The number that `done` names, and the number of changes.
type Done = (Option<u32>, u64);

/// What a transaction does.
#[derive(Drop)]
struct Outcome {
    /// How many rows are inserted and deleted, and of how many relations.
    changed: Result<[usize; 4], DoneRefusal>,
    /// The rows between.
    between: Vec<u64>,
    /// The rows once the inserted ones are removed again.
    undone: Vec<u64>,
    /// The rows after it.
    after: Vec<u64>,
}

/// The outcome of a transaction that is refused, with these rows after it.
fn refused(alloc: Global, refusal: DoneRefusal, after: Vec<u64>) -> Outcome {
    Outcome {
        changed: Err(refusal),
        between: Vec::new(alloc),
        undone: Vec::new(alloc),
        after,
    }
}

/// Carries out lines: it inserts rows, gives them up, and inserts them again before others are removed.
fn carry_out<L: Ledger>(
    alloc: Global,
    catalog: &mut Catalog,
    lines: &[Line],
    done: Done,
    tally: &mut Tally<L>,
) -> Result<Outcome, Fail> {
    let transaction = hold_all(alloc, catalog, lines)?;
    let net = match judge_done(catalog, alloc, &transaction, done.0, done.1, tally) {
        Ok(net) => net,
        Err(refusal) => return Ok(refused(alloc, refusal, rows(alloc, catalog, tally)?)),
    };
    let groups = group_rows(alloc, catalog, &net)?;
    insert_rows(catalog, &net, tally)?;
    let between = rows(alloc, catalog, tally)?;
    undo_rows(catalog, &net, tally);
    let undone = rows(alloc, catalog, tally)?;
    insert_rows(catalog, &net, tally)?;
    remove_rows(catalog, &net, tally);
    let after = rows(alloc, catalog, tally)?;
    let changed = [
        net.count_came(),
        net.count_went(),
        groups.come.len(),
        groups.gone.len(),
    ];
    Ok(Outcome {
        changed: Ok(changed),
        between,
        undone,
        after,
    })
}

/// Carries out lines over the rows that other lines leave.
fn on_ledgers<L: Ledgers>(
    rt: &HostRuntime,
    blanks: Blanks,
    before: &[Line],
    lines: &[Line],
    done: Done,
) -> Result<Outcome, Fail>
    requires listing { blanks.listing.name ≡ L.listing }
    requires update { blanks.update.name ≡ L.update }
    requires rows { blanks.rows.name ≡ L.rows }
{
    let mut steps = Steps::<L>::new(rt, blanks);
    let mut catalog = one_relation(rt.alloc())?;
    let _before = carry_out(rt.alloc(), &mut catalog, before, (None, 0), &mut steps.rows)?;
    carry_out(rt.alloc(), &mut catalog, lines, done, &mut steps.rows)
}

/// What lines do to the rows that other lines leave.
fn seen(rt: &HostRuntime, before: &[Line], lines: &[Line], done: Done) -> Result<Outcome, Fail> {
    on_ledgers::<Brand>(rt, Blanks::new(rt), before, lines, done)
}

#[test]
fn replaces_a_row(rt: HostRuntime) -> Result<(), Fail> {
    let it = seen(&rt, &[add(1, 10)], &[add(1, 11), delete(1, 10)], (None, 1))?;
    assert!(rt; it.changed == Ok([1, 1, 1, 1]));
    assert!(rt; it.between.as_slice() == [1, 10, 1, 1, 11, 1].as_slice());
    assert!(rt; it.undone.as_slice() == [1, 10, 1].as_slice());
    assert!(rt; it.after.as_slice() == [1, 11, 1].as_slice());
    Ok(())
}

/// Two lines, what `done` names at which number of changes, and why it is refused.
const REFUSALS: [([Line; 2], Done, DoneRefusal); 3] = [
    (
        [(Verb::Add, 7, 7), (Verb::Delete, 9, 9)],
        (None, 3),
        DoneRefusal::Line(RefusedLine {
            at: 1,
            refusal: LineRefusal::Absent,
        }),
    ),
    (
        [(Verb::Add, 7, 7), (Verb::Delete, 9, 9)],
        (Some(1), 3),
        DoneRefusal::OtherNumber,
    ),
    (
        [(Verb::Add, 7, 7), (Verb::Delete, 2, 5)],
        (Some(2), LAST_SEQ),
        DoneRefusal::LastChange,
    ),
];

#[test]
fn refuses_all_lines(rt: HostRuntime) -> Result<(), Fail> {
    for (lines, done, refusal) in REFUSALS {
        let it = seen(&rt, &[add(2, 5)], &lines, done)?;
        assert!(rt; it.changed == Err(refusal));
        assert!(rt; it.after.as_slice() == [2, 5, 1].as_slice());
    }
    Ok(())
}

/// No row changes, so this is no change: the last number of changes allows it.
#[test]
fn a_row_that_comes_and_goes_is_neither(rt: HostRuntime) -> Result<(), Fail> {
    let it = seen(
        &rt,
        &[add(2, 5)],
        &[add(3, 3), delete(3, 3)],
        (Some(2), LAST_SEQ),
    )?;
    assert!(rt; it.changed == Ok([0, 0, 0, 0]));
    assert!(rt; it.after.as_slice() == [2, 5, 1].as_slice());
    Ok(())
}

#[test]
fn a_row_has_the_copies_that_lines_leave(rt: HostRuntime) -> Result<(), Fail> {
    let last = seen(
        &rt,
        &[add(2, 5)],
        &[add(2, 5), delete(2, 5), delete(2, 5)],
        (None, 4),
    )?;
    assert!(rt; last.changed == Ok([0, 1, 0, 1]) && last.after.is_empty());
    let more = seen(
        &rt,
        &[add(2, 5)],
        &[delete(2, 5), add(2, 5), add(2, 5)],
        (None, 4),
    )?;
    assert!(rt; more.changed == Ok([0, 0, 0, 0]));
    assert!(rt; more.after.as_slice() == [2, 5, 2].as_slice());
    Ok(())
}

#[test]
fn has_laws() {
    lines_settle();
    lines_suit();
    lines_lead();
    lines_leave();
}
