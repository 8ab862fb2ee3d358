//! A judged net is applied to a catalog: first all new rows are inserted, then the others change.
ghost use Rattle.std.specs.Prelude.{◌≡◌, ◌<◌, ◌≤◌, ◌+◌, List, length, OnOk, OnErr};
ghost use Rattle.djq_model.specs.declared.relation.Relation.{Relation};
ghost use Rattle.djq_store_spec.specs.Held as spec;
ghost use Rattle.djq_store_spec.specs.Lines.{relations_after};
ghost use Rattle.djq_transaction.specs.Applied.{IsJudged, HasFirst, HasAllInserted, HasChangedFirst};

use crate::copies::{change_copies, delete_copies, insert_row};
use crate::net::Net;
use djq_counters::Tally;
use djq_database::Catalog;
use djq_model::NoMem;
use std::sync::ledger::Ledger;

/// Inserts the row at a place of a net if it is new, with its copies.
///
/// # Errors
///
/// `NoMem` out of memory; no relation has changed.
fn insert_at<L: Ledger>(
    catalog: &mut Catalog,
    net: &Net,
    place: usize,
    tally: &mut Tally<L>,
) -> Result<(), NoMem>
    requires first { (relations : List Relation) × (lines : List spec.HeldLine)
        × HasFirst relations lines place catalog.old net.now }
    requires within { place < length net.now.copies.items }
    ensures ok { OnOk result ((relations : List Relation) (lines : List spec.HeldLine)
        → HasFirst relations lines place catalog.old net.now
        → HasFirst relations lines (place + 1) catalog.new net.now) }
    ensures err { OnErr result (catalog.new.relations ≡ catalog.old.relations) }
    ensures texts { catalog.new.texts ≡ catalog.old.texts }
{
    catalog.laws();
    let copies = net.copies[place];
    if !copies.came() {
        return Ok(());
    }
    let (id, cells) = net.row(catalog, place);
    insert_row(catalog, id, cells.as_slice(), copies.after, tally)?;
    Ok(())
}

/// Removes the row at a place of a net again if it was inserted, as the last one. It allocates nothing.
fn take_at<L: Ledger>(catalog: &mut Catalog, net: &Net, place: usize, tally: &mut Tally<L>)
    requires first { (relations : List Relation) × (lines : List spec.HeldLine)
        × HasFirst relations lines (place + 1) catalog.old net.now }
    requires within { place < length net.now.copies.items }
    ensures back { (relations : List Relation) (lines : List spec.HeldLine)
        → HasFirst relations lines (place + 1) catalog.old net.now
        → HasFirst relations lines place catalog.new net.now }
    ensures texts { catalog.new.texts ≡ catalog.old.texts }
{
    catalog.laws();
    let copies = net.copies[place];
    if !copies.came() {
        return;
    }
    let (id, cells) = net.row(catalog, place);
    delete_copies(catalog, id, cells.as_slice(), copies.after, 0, tally);
}

/// Removes the inserted rows, of the first so many of a net, the last one first. It allocates nothing.
fn take_back<L: Ledger>(catalog: &mut Catalog, net: &Net, count: usize, tally: &mut Tally<L>)
    requires first { (relations : List Relation) × (lines : List spec.HeldLine)
        × HasFirst relations lines count catalog.old net.now }
    requires within { count ≤ length net.now.copies.items }
    ensures back { (relations : List Relation) (lines : List spec.HeldLine)
        → HasFirst relations lines count catalog.old net.now → catalog.new.relations ≡ relations }
    ensures texts { catalog.new.texts ≡ catalog.old.texts }
{
    let mut left = count;
    while left > 0 {
        left -= 1;
        take_at(catalog, net, left, tally);
    }
}

/// Inserts the new rows of a judged net, each with its copies. Every other row stays as it is until
/// [`remove_rows`].
///
/// # Errors
///
/// `NoMem` out of memory; no relation has changed.
pub fn insert_rows<L: Ledger>(
    catalog: &mut Catalog,
    net: &Net,
    tally: &mut Tally<L>,
) -> Result<(), NoMem>
    requires judged { (lines : List spec.HeldLine)
        × IsJudged catalog.old.relations catalog.old.texts lines net.now }
    ensures ok { OnOk result ((lines : List spec.HeldLine)
        → IsJudged catalog.old.relations catalog.old.texts lines net.now
        → HasAllInserted catalog.old.relations lines catalog.new net.now) }
    ensures err { OnErr result (catalog.new.relations ≡ catalog.old.relations) }
    ensures texts { catalog.new.texts ≡ catalog.old.texts }
{
    catalog.laws();
    for place in 0..net.copies.len() {
        match insert_at(catalog, net, place, tally) {
            Ok(()) => {}
            Err(error) => {
                take_back(catalog, net, place, tally);
                return Err(error);
            }
        }
    }
    Ok(())
}

/// Removes the rows again that [`insert_rows`] has inserted, the last one first. It allocates nothing.
pub fn undo_rows<L: Ledger>(catalog: &mut Catalog, net: &Net, tally: &mut Tally<L>)
    requires inserted { (relations : List Relation) × (lines : List spec.HeldLine)
        × HasAllInserted relations lines catalog.old net.now }
    ensures back { (relations : List Relation) (lines : List spec.HeldLine)
        → HasAllInserted relations lines catalog.old net.now → catalog.new.relations ≡ relations }
    ensures texts { catalog.new.texts ≡ catalog.old.texts }
{
    take_back(catalog, net, net.copies.len(), tally);
}

/// Gives the row at a place of a net its copies if it isn't new; without any it is removed. It allocates nothing.
fn change_at<L: Ledger>(catalog: &mut Catalog, net: &Net, place: usize, tally: &mut Tally<L>)
    requires first { (relations : List Relation) × (lines : List spec.HeldLine)
        × HasChangedFirst relations lines place catalog.old net.now }
    requires within { place < length net.now.copies.items }
    ensures changed { (relations : List Relation) (lines : List spec.HeldLine)
        → HasChangedFirst relations lines place catalog.old net.now
        → HasChangedFirst relations lines (place + 1) catalog.new net.now }
    ensures texts { catalog.new.texts ≡ catalog.old.texts }
{
    catalog.laws();
    let copies = net.copies[place];
    if copies.came() {
        return;
    }
    let (id, cells) = net.row(catalog, place);
    change_copies(catalog, id, cells.as_slice(), copies, tally);
}

/// Removes the rows of a net that have no copy left, once the new ones are inserted; and gives those that stay
/// the copies that lines leave of them. It allocates nothing.
pub fn remove_rows<L: Ledger>(catalog: &mut Catalog, net: &Net, tally: &mut Tally<L>)
    requires inserted { (relations : List Relation) × (lines : List spec.HeldLine)
        × HasAllInserted relations lines catalog.old net.now }
    ensures after { (relations : List Relation) (lines : List spec.HeldLine)
        → HasAllInserted relations lines catalog.old net.now
        → catalog.new.relations ≡ relations_after relations lines }
    ensures texts { catalog.new.texts ≡ catalog.old.texts }
{
    for place in 0..net.copies.len() {
        change_at(catalog, net, place, tally);
    }
}
