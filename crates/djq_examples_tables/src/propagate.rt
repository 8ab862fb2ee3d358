ghost use Rattle.std.specs.Prelude.{◌≡◌, ◌<◌, true, length, IfOk, IfSome};
ghost use Rattle.djq_index.specs.Entries.{count_of};
ghost use Rattle.djq_reduct.specs.Marks.{IsBare};
ghost use Rattle.djq_reduct.specs.Tables.{entries_at};
ghost use Rattle.djq_propagate.specs.Touches.{HaveMarksOnlyAt};

use djq_counters::{Blanks, Ledgers, Steps, Tally};
use djq_hypergraph::{Edges, VarSet};
use djq_plan::plan;
use djq_propagate::{
    finish_insertion, finish_removal, insert_leaf, insert_leaf_many, mark_above, mark_removal,
    mark_tuple, undo_insertion,
};
use djq_reduct::{Cells, Reducts, is_narrow};
use std::alloc::{AllocError, Global};
use std::marker::Brand;
use std::sync::ledger::Ledger;
use std::test::Fail;

/// The reducts of the query with these atoms and head, without a tuple; none if it has no tree.
fn planned(alloc: Global, edges: &Edges, head: VarSet) -> Result<Option<Reducts>, AllocError>
    ensures { IfOk result (λ o. IfSome o (λ r. IsBare r.tables)) }
{
    if edges.is_empty() {
        return Ok(None);
    }
    if !edges.covers(head) {
        return Ok(None);
    }
    let Ok(tree) = plan(alloc, edges, &head) else {
        return Ok(None);
    };
    if !is_narrow(&tree) {
        return Ok(None);
    }
    let reducts = Reducts::new(alloc, tree)?;
    Ok(Some(reducts))
}

/// Puts a tuple into a leaf, and leaves it there or removes it again; returns whether it was new.
fn put<L: Ledger>(
    reducts: &mut Reducts,
    leaf: usize,
    tuple: &[u64],
    keep: bool,
    tally: &mut Tally<L>,
) -> Result<bool, AllocError>
    requires { IsBare reducts.old.tables }
    ensures { IsBare reducts.new.tables }
{
    if leaf >= reducts.tree().leaves() || leaf >= reducts.tree().len() {
        return Ok(false);
    }
    if tuple.len() != reducts.tree().label(leaf).len() {
        return Ok(false);
    }
    if reducts.table(leaf).len() >= u32::MAX as usize {
        return Ok(false);
    }
    match reducts.table(leaf).find(tuple, tally) {
        Some(_place) => Ok(false),
        None => {
            insert_leaf(reducts, leaf, tuple, tally)?;
            if keep {
                finish_insertion(reducts, leaf, tally);
                return Ok(true);
            }
            undo_insertion(reducts, leaf, tally);
            Ok(true)
        }
    }
}

/// Whether a leaf lacks a tuple.
fn lacks<L: Ledger>(reducts: &Reducts, leaf: usize, tuple: &[u64], tally: &mut Tally<L>) -> bool
    requires { leaf < length reducts.now.tree.nodes }
    ensures { result ≡ true → count_of (entries_at reducts.now.tables leaf) tuple.now ≡ 0 }
{
    match reducts.table(leaf).find(tuple, tally) {
        Some(_place) => false,
        None => true,
    }
}

/// Whether a leaf has a tuple that is marked.
fn has_marked<L: Ledger>(
    reducts: &Reducts,
    leaf: usize,
    tuple: &[u64],
    tally: &mut Tally<L>,
) -> bool
    requires { leaf < length reducts.now.tree.nodes }
{
    match reducts.table(leaf).find(tuple, tally) {
        Some(place) => reducts.table(leaf).marked(place),
        None => false,
    }
}

/// Puts two tuples of one cell into a leaf at once; returns whether both were marked before the update's end.
fn put_both<L: Ledger>(
    alloc: Global,
    reducts: &mut Reducts,
    leaf: usize,
    first: u64,
    second: u64,
    tally: &mut Tally<L>,
) -> Result<bool, AllocError>
    requires { IsBare reducts.old.tables }
    ensures { IsBare reducts.new.tables }
{
    if leaf >= reducts.tree().leaves() || leaf >= reducts.tree().len() {
        return Ok(false);
    }
    if reducts.tree().label(leaf).len() != 1 || reducts.table(leaf).len() > 1000 {
        return Ok(false);
    }
    if first == second {
        return Ok(false);
    }
    if !lacks(reducts, leaf, &[first], tally) {
        return Ok(false);
    }
    if !lacks(reducts, leaf, &[second], tally) {
        return Ok(false);
    }
    let mut tuples = Vec::new(alloc);
    tuples.push(Cells::from_slice(&[first]))?;
    tuples.push(Cells::from_slice(&[second]))?;
    insert_leaf_many(reducts, leaf, &tuples, tally)?;
    let one = has_marked(reducts, leaf, &[first], tally);
    let other = has_marked(reducts, leaf, &[second], tally);
    finish_insertion(reducts, leaf, tally);
    Ok(one && other)
}

/// Removes a tuple from a leaf; returns whether it was there.
fn take<L: Ledger>(reducts: &mut Reducts, leaf: usize, tuple: &[u64], tally: &mut Tally<L>) -> bool
    requires { IsBare reducts.old.tables }
    ensures { IsBare reducts.new.tables }
{
    if leaf >= reducts.tree().leaves() || leaf >= reducts.tree().len() {
        return false;
    }
    match reducts.table(leaf).find(tuple, tally) {
        Some(_place) => {
            mark_removal(reducts, leaf, tuple, tally);
            finish_removal(reducts, leaf, tally);
            true
        }
        None => false,
    }
}

/// Marks a tuple of a leaf for a removal of many; returns whether it was there.
fn mark<L: Ledger>(reducts: &mut Reducts, leaf: usize, tuple: &[u64], tally: &mut Tally<L>) -> bool
    requires leaf { leaf < reducts.old.tree.leaves }
    requires within { leaf < length reducts.old.tree.nodes }
    requires only { HaveMarksOnlyAt reducts.old.tables leaf }
    ensures tree { reducts.new.tree ≡ reducts.old.tree }
    ensures only { HaveMarksOnlyAt reducts.new.tables leaf }
{
    match reducts.table(leaf).find(tuple, tally) {
        Some(_place) => {
            mark_tuple(reducts, leaf, tuple, tally);
            true
        }
        None => false,
    }
}

/// Removes two tuples of one cell from a leaf at once; returns whether both were there.
fn take_both<L: Ledger>(
    reducts: &mut Reducts,
    leaf: usize,
    first: u64,
    second: u64,
    tally: &mut Tally<L>,
) -> bool
    requires { IsBare reducts.old.tables }
    ensures { IsBare reducts.new.tables }
{
    if leaf >= reducts.tree().leaves() || leaf >= reducts.tree().len() {
        return false;
    }
    let one = mark(reducts, leaf, &[first], tally);
    let other = mark(reducts, leaf, &[second], tally);
    mark_above(reducts, leaf, tally);
    finish_removal(reducts, leaf, tally);
    one && other
}

/// How many supports a tuple has at a node, 0 if it isn't there.
fn supports<L: Ledger>(reducts: &Reducts, node: usize, tuple: &[u64], tally: &mut Tally<L>) -> u32 {
    if node >= reducts.tree().len() {
        return 0;
    }
    let table = reducts.table(node);
    match table.find(tuple, tally) {
        Some(place) => table.supports(place),
        None => 0,
    }
}

/// The supports of 5 in y's trim, of 5 and 7 in the meet, and of the tuple without cells in the root.
fn seen<L: Ledger>(reducts: &Reducts, tally: &mut Tally<L>) -> [u32; 4] {
    [
        supports(reducts, 2, &[5], tally),
        supports(reducts, 3, &[5], tally),
        supports(reducts, 3, &[7], tally),
        supports(reducts, 4, &[], tally),
    ]
}

/// Puts three rows into r and two into s.
fn fill<L: Ledger>(reducts: &mut Reducts, tally: &mut Tally<L>) -> Result<bool, AllocError>
    requires { IsBare reducts.old.tables }
    ensures { IsBare reducts.new.tables }
{
    let one = put(reducts, 0, &[1, 5], true, tally)?;
    let two = put(reducts, 0, &[2, 7], true, tally)?;
    let three = put(reducts, 0, &[3, 5], true, tally)?;
    let five = put(reducts, 1, &[5], true, tally)?;
    let nine = put(reducts, 1, &[9], true, tally)?;
    Ok(one && two && three && five && nine)
}

/// What is seen as rows are inserted, as 7 is inserted into s and undone, as it is with 8, as 5 is deleted from s, and
/// as 7 is with 8.
fn updated<L: Ledger>(
    alloc: Global,
    reducts: &mut Reducts,
    tally: &mut Tally<L>,
) -> Result<(bool, [[u32; 4]; 5]), AllocError>
    requires { IsBare reducts.old.tables }
{
    let filled = fill(reducts, tally)?;
    let before = seen(reducts, tally);
    let came = put(reducts, 1, &[7], false, tally)?;
    let undone = seen(reducts, tally);
    let both = put_both(alloc, reducts, 1, 7, 8, tally)?;
    let kept = seen(reducts, tally);
    let went = take(reducts, 1, &[5], tally);
    let after = seen(reducts, tally);
    let gone = take_both(reducts, 1, 7, 8, tally);
    let empty = seen(reducts, tally);
    Ok((
        filled && came && both && went && gone,
        [before, undone, kept, after, empty],
    ))
}

/// The updates of `q(x,y) <- r(x,y), s(y)`, whose tables the crate's documentation shows.
fn on_ledgers<L: Ledgers>(
    rt: &HostRuntime,
    blanks: Blanks,
) -> Result<(bool, [[u32; 4]; 5]), AllocError>
    requires listing { blanks.listing.name ≡ L.listing }
    requires update { blanks.update.name ≡ L.update }
    requires rows { blanks.rows.name ≡ L.rows }
{
    let mut steps = Steps::<L>::new(rt, blanks);
    let y = VarSet::new().insert(1);
    let mut edges = Edges::new(rt.alloc());
    edges.push(y.insert(0))?;
    edges.push(y)?;
    match planned(rt.alloc(), &edges, y.insert(0))? {
        Some(mut reducts) => updated(rt.alloc(), &mut reducts, &mut steps.update),
        None => Ok((false, [[0; 4]; 5])),
    }
}

#[test]
fn keeps_reducts(rt: HostRuntime) -> Result<(), Fail> {
    let (done, tables) = on_ledgers::<Brand>(&rt, Blanks::new(&rt))?;
    assert!(rt; done);
    let [before, undone, kept, after, empty] = tables;
    assert!(rt; before == [2, 1, 0, 1] && undone == [2, 1, 0, 1]);
    assert!(rt; kept == [2, 1, 1, 2] && after == [2, 0, 1, 1]);
    assert!(rt; empty == [2, 0, 0, 0]);
    Ok(())
}
