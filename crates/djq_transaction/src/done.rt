//! `done`: whether a transaction is done, and what it does to rows.
ghost use Rattle.std.specs.Prelude.{◌≡◌, ◌≤◌, ◌&&◌, ℕ, List, All, length, nat_le, nat_lt, IfOk, IfErr};
ghost use Rattle.djq_model.specs.declared.relation.Relation.{Relation};
ghost use Rattle.djq_model.specs.Data.{Bytes};
ghost use Rattle.djq_protocol.specs.declared.limits.TheConstants.{LAST_SEQ};
ghost use Rattle.djq_store_spec.specs.Held as spec;
ghost use Rattle.djq_store_spec.specs.Done.{AnswersDone, RefusesDone, done_refusal, is_other, rows_changed};
ghost use Rattle.djq_store_spec.specs.Judging.{texts_after};
ghost use Rattle.djq_transaction.specs.Net.{IsNet, Suits};
ghost use Rattle.djq_transaction.specs.Applied.{IsJudged};

use crate::held::Transaction;
use crate::net::Net;
use crate::transaction::judge_all;
use djq_counters::Tally;
use djq_database::Catalog;
use djq_protocol::DoneRefusal;
use djq_protocol::limits::LAST_SEQ;
use std::alloc::Global;
use std::sync::ledger::Ledger;

/// Whether `done` names another number than that of the held lines.
fn names_other(given: Option<u32>, held: usize) -> bool
    ensures { result ≡ is_other given held }
{
    match given {
        Some(number) => number as usize != held,
        None => false,
    }
}

/// Whether rows are inserted or removed, and the number of changes is the last.
fn is_past_last(net: &Net, seq: u64) -> bool
    ensures { (relations : List Relation) (texts : List Bytes) (width : ℕ) (lines : List spec.HeldLine)
        → IsNet relations texts width lines net.now
        → result ≡ (nat_lt 0 (rows_changed relations lines) && nat_le LAST_SEQ seq) }
{
    if seq < LAST_SEQ {
        return false;
    }
    net.count_came() > 0 || net.count_went() > 0
}

/// Judges the lines of a transaction as one change: the number that `done` names, if it names one; each line, in order,
/// over the rows that are there and what the lines before it leave; and the number of changes. It returns their net. No
/// relation changes. The texts of rows that lines add become known.
///
/// A number over [`HELD`](djq_protocol::limits::HELD) is another number, whichever it is.
///
/// # Errors
///
/// `OtherNumber` if another number is named. Else `Line` as [`judge_all`] refuses: the first line that has a refusal.
/// Else `LastChange` if a row is inserted or removed at the last number of changes. The texts of lines that passed are
/// known. It never answers `NoMemory`.
pub fn judge_done<L: Ledger>(
    catalog: &mut Catalog,
    alloc: Global,
    transaction: &Transaction,
    given: Option<u32>,
    seq: u64,
    tally: &mut Tally<L>,
) -> Result<Net, DoneRefusal>
    requires suit { All (Suits catalog.old.relations) transaction.now.lines }
    ensures answer { AnswersDone (is_other given (length transaction.now.lines))
        (done_refusal catalog.old.relations catalog.old.texts seq transaction.now.lines given) result }
    ensures ok { IfOk result (λ net. (catalog.new.texts ≡ texts_after catalog.old.texts transaction.now.lines)
        × IsJudged catalog.old.relations catalog.new.texts transaction.now.lines net) }
    ensures err { IfErr result (RefusesDone catalog.old.relations catalog.old.texts
        transaction.now.lines catalog.new.texts) }
    ensures relations { catalog.new.relations ≡ catalog.old.relations }
{
    if names_other(given, transaction.len()) {
        return Err(DoneRefusal::OtherNumber);
    }
    let net = match judge_all(catalog, alloc, transaction, tally) {
        Ok(net) => net,
        Err(refused) => return Err(DoneRefusal::Line(refused)),
    };
    if is_past_last(&net, seq) {
        return Err(DoneRefusal::LastChange);
    }
    Ok(net)
}
