//! All lines of a transaction, judged one after another.
ghost use Rattle.std.specs.Prelude.{◌≡◌, ◌+◌, [], ◌<◌, ◌≤◌, ℕ, All, None, length, IfOk, IfErr};
ghost use Rattle.djq_store_spec.specs.Judging.{AnswersAs, RefusesLines, lines_refusal, texts_after};
ghost use Rattle.djq_transaction.specs.Net.{IsNetTable, IsNet, Suits, PassesLine, RefusesLine, keys};
ghost use Rattle.djq_transaction.specs.Applied.{IsJudged};
ghost use Rattle.djq_transaction.specs.declared.key.TheConstants.{KEY_CELLS};
ghost use Rattle.djq_arena.specs.declared.link.TheConstants.{SLOTS};
ghost use Rattle.djq_index.specs.declared.cells.TheConstants.{CELLS};
ghost use Rattle.djq_database.specs.Catalog.{relation_at};
ghost use Rattle.djq_store_spec.specs.Held.{transaction_line};

use crate::held::Transaction;
use crate::judge::{Room, judge_add, judge_delete};
use crate::key::Key;
use crate::net::Net;
use djq_counters::Tally;
use djq_database::{Catalog, RelationId};
use djq_index::Cells;
use djq_protocol::{LineRefusal, RefusedLine, Verb};
use std::alloc::Global;
use std::sync::ledger::Ledger;

/// The most columns of a relation.
fn most_columns(catalog: &Catalog) -> usize
    ensures most { (i : ℕ) → i < length catalog.now.relations
        → length (relation_at catalog.now.relations i).types ≤ result }
    ensures few { result ≤ CELLS }
{
    catalog.laws();
    let mut most = 0;
    for at in 0..catalog.len() {
        let columns = catalog.columns(RelationId { at }).len();
        if columns > most {
            most = columns;
        }
    }
    most
}

/// The line at a place. Its relation is found by its name.
///
/// # Errors
///
/// `Limit`, `Absent`, `NoMemory`: as for its verb.
fn judge_line<L: Ledger>(
    catalog: &mut Catalog,
    net: &mut Net,
    width: usize,
    transaction: &Transaction,
    at: usize,
    room: &mut Room,
    tally: &mut Tally<L>,
) -> Result<(), LineRefusal>
    requires table { IsNetTable width net.old }
    requires few { length (keys net.old) < SLOTS }
    requires within { at < length transaction.now.lines }
    requires suits { Suits catalog.old.relations (transaction_line transaction.now at) }
    requires wide { (i : ℕ) → i < length catalog.old.relations
        → 1 + length (relation_at catalog.old.relations i).types ≤ width }
    requires narrow { width ≤ KEY_CELLS }
    ensures ok { IfOk result (λ _. PassesLine catalog.old.relations catalog.old.texts width net.old
        (transaction_line transaction.now at) catalog.new.texts net.new) }
    ensures err { IfErr result (RefusesLine catalog.old.relations catalog.old.texts width net.old
        (transaction_line transaction.now at) catalog.new.texts) }
    ensures relations { catalog.new.relations ≡ catalog.old.relations }
{
    let name = transaction.relation(at);
    let Some(id) = catalog.id(&name) else {
        unreachable!()
    };
    let row = transaction.row(at);
    match transaction.verb(at) {
        Verb::Add => judge_add(catalog, net, width, id, row, room, tally),
        Verb::Delete => judge_delete(catalog, net, width, id, row, room, tally),
    }
}

/// All lines, one after another.
///
/// # Errors
///
/// The first line that is refused.
fn judge_lines<L: Ledger>(
    catalog: &mut Catalog,
    net: &mut Net,
    width: usize,
    transaction: &Transaction,
    room: &mut Room,
    tally: &mut Tally<L>,
) -> Result<(), RefusedLine>
    requires empty { IsNet catalog.old.relations catalog.old.texts width [] net.old }
    requires suit { All (Suits catalog.old.relations) transaction.now.lines }
    requires wide { (i : ℕ) → i < length catalog.old.relations
        → 1 + length (relation_at catalog.old.relations i).types ≤ width }
    requires narrow { width ≤ KEY_CELLS }
    ensures ok { IfOk result (λ _. (lines_refusal catalog.old.relations catalog.old.texts transaction.now.lines ≡ None)
        × (catalog.new.texts ≡ texts_after catalog.old.texts transaction.now.lines)
        × IsNet catalog.old.relations catalog.new.texts width transaction.now.lines net.new) }
    ensures err { IfErr result (RefusesLines catalog.old.relations catalog.old.texts
        transaction.now.lines catalog.new.texts) }
    ensures relations { catalog.new.relations ≡ catalog.old.relations }
{
    for at in 0..transaction.len() {
        match judge_line(catalog, net, width, transaction, at, room, tally) {
            Ok(()) => {}
            Err(refusal) => return Err(RefusedLine { at, refusal }),
        }
    }
    Ok(())
}

/// Judges lines in their order, each over the rows that are there and what the lines before it leave, and returns their
/// net. No relation changes. The texts of rows that lines add become known.
///
/// # Errors
///
/// The first line that has a refusal: `Limit` if a row that it adds has as many copies as it may, or is new
/// and its relation is full, or a text of it finds no place; `Absent` if it deletes a row without a copy. Or
/// `NoMemory`, out of memory, at a line before which no line names its row. The texts of the lines before it are known.
pub fn judge_all<L: Ledger>(
    catalog: &mut Catalog,
    alloc: Global,
    transaction: &Transaction,
    tally: &mut Tally<L>,
) -> Result<Net, RefusedLine>
    requires suit { All (Suits catalog.old.relations) transaction.now.lines }
    ensures answer { AnswersAs (lines_refusal catalog.old.relations catalog.old.texts transaction.now.lines) result }
    ensures ok { IfOk result (λ net. (catalog.new.texts ≡ texts_after catalog.old.texts transaction.now.lines)
        × IsJudged catalog.old.relations catalog.new.texts transaction.now.lines net) }
    ensures err { IfErr result (RefusesLines catalog.old.relations catalog.old.texts
        transaction.now.lines catalog.new.texts) }
    ensures relations { catalog.new.relations ≡ catalog.old.relations }
{
    let width = 1 + most_columns(catalog);
    let mut net = Net::new(alloc, width);
    let mut room = Room {
        cells: Cells::new(0),
        key: Key::new(),
    };
    match judge_lines(catalog, &mut net, width, transaction, &mut room, tally) {
        Ok(()) => Ok(net),
        Err(refused) => Err(refused),
    }
}
