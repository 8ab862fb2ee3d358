//! How many places for numbers and how many buckets there are, and how these become more or fewer.
ghost use Rattle.std.specs.Prelude.{◌≡◌, ℕ, ◌+◌, ◌-◌, ◌<◌, ◌≤◌, length, take, replicate, None, IsSome, IfOk, OnOk, OnErr};
ghost use Rattle.djq_arena.specs.declared.link.TheConstants.{SLOTS};
ghost use Rattle.djq_texts.specs.Known.{known_at, in_use_from};
ghost use Rattle.djq_texts.specs.Index.{IsTextIndex, AreFewBuckets, quarter};
ghost use Rattle.djq_texts.specs.declared.store.TheConstants.{FIRST_BUCKETS};

use crate::entry::Entry;
use crate::links::push_bucket;
use crate::store::{FIRST_BUCKETS, Store, entry_bucket};
use djq_arena::Link;
use std::alloc::{AllocError, Global};

/// Empty buckets, as many as at first.
pub(crate) fn first_buckets(alloc: Global) -> Result<Vec<Link>, AllocError>
    ensures { IfOk result (λ heads. heads.items ≡ replicate FIRST_BUCKETS None) }
{
    let mut heads = Vec::new(alloc);
    heads.resize(FIRST_BUCKETS, Link::none())?;
    Ok(heads)
}

/// The first upper number for so many buckets.
pub(crate) fn quarter(buckets: usize) -> usize
    requires { 0 < buckets }
    ensures { result ≡ quarter buckets }
{
    (buckets - 1) / 4
}

/// What a number counts among the upper ones: one if it is one of them, and else nothing.
pub(crate) fn share(number: u32, buckets: usize) -> usize
    requires { 0 < buckets }
    ensures most { result ≤ 1 }
    ensures low { number < quarter buckets → result ≡ 0 }
    ensures high { quarter buckets ≤ number → result ≡ 1 }
{
    if (number as usize) < quarter(buckets) {
        0
    } else {
        1
    }
}

/// How many texts have a number from one on.
fn count_from(entries: &Vec<Entry>, from: usize) -> usize
    ensures { result ≡ in_use_from from entries.now.items }
{
    let mut count = 0;
    for number in from..entries.len() {
        count += entries[number].count();
    }
    count
}

/// One more than the highest number in use; 0 if none is.
fn top_of(entries: &Vec<Entry>) -> usize
    ensures within { result ≤ length entries.now.items }
    ensures free { (n : ℕ) → result ≤ n → known_at entries.now.items n ≡ None }
    ensures used { 0 < result → IsSome (known_at entries.now.items (result - 1)) }
{
    let mut top = entries.len();
    while 0 < top {
        if entries[top - 1].is_used() {
            return top;
        }
        top -= 1;
    }
    top
}

/// How many buckets are enough for so many numbers, and leave room for as many again.
fn fitting(buckets: usize, top: usize) -> usize
    requires some { 1 < buckets }
    requires room { top < buckets }
    ensures some { 1 < result }
    ensures room { top < result }
    ensures fewer { result ≤ buckets }
    ensures tight { AreFewBuckets result (top - quarter result) }
{
    let mut fit = buckets;
    while FIRST_BUCKETS < fit {
        if quarter(fit) < top {
            return fit;
        }
        fit = fit / 2 + 1;
    }
    fit
}

/// Puts all numbers into buckets, which are empty yet.
fn list_all(entries: &Vec<Entry>, links: &mut Vec<Link>, heads: &mut Vec<Link>)
    requires empty { heads.old.items ≡ replicate (length heads.old.items) None }
    requires linked { length links.old.items ≡ length entries.now.items }
    requires some { 1 < length heads.old.items }
    requires few { length entries.now.items ≤ SLOTS }
    ensures heads { length heads.new.items ≡ length heads.old.items }
    ensures index { IsTextIndex entries.now.items links.new.items heads.new.items }
{
    for number in 0..entries.len() {
        let to = entry_bucket(&entries[number], heads.len());
        push_bucket(links, heads, to, number as u32);
    }
}

/// Puts all numbers into their buckets, of which there are more or fewer now.
fn relist(store: &mut Store)
    requires linked { length store.old.links.items ≡ length store.old.entries.items }
    requires some { 1 < length store.old.heads.items }
    requires few { length store.old.entries.items ≤ SLOTS }
    ensures entries { store.new.entries.items ≡ store.old.entries.items }
    ensures heads { length store.new.heads.items ≡ length store.old.heads.items }
    ensures index { IsTextIndex store.new.entries.items store.new.links.items store.new.heads.items }
{
    store.heads.as_mut_slice().fill(Link::none());
    list_all(&store.entries, &mut store.links, &mut store.heads);
}

/// Room in the buckets for one more number, if all are in use: twice as many buckets for texts if there are no more of them
/// than numbers. It is given how many texts have an upper number, and returns how many have one afterwards. Out of memory,
/// nothing changes.
pub(crate) fn widen(store: &mut Store, high: usize) -> Result<usize, AllocError>
    requires index { IsTextIndex store.old.entries.items store.old.links.items store.old.heads.items }
    requires full { (n : ℕ) → n < length store.old.entries.items → IsSome (known_at store.old.entries.items n) }
    requires room { length store.old.entries.items < length store.old.heads.items }
    requires high { high ≡ in_use_from (quarter (length store.old.heads.items)) store.old.entries.items }
    requires tight { AreFewBuckets (length store.old.heads.items) high }
    ensures entries { store.new.entries.items ≡ store.old.entries.items }
    ensures index { IsTextIndex store.new.entries.items store.new.links.items store.new.heads.items }
    ensures room { OnOk result (length store.new.entries.items + 1 < length store.new.heads.items) }
    ensures high { IfOk result (λ h. h ≡ in_use_from (quarter (length store.new.heads.items)) store.new.entries.items) }
    ensures tight { IfOk result (λ h. AreFewBuckets (length store.new.heads.items) h) }
    ensures err { OnErr result (length store.new.heads.items ≡ length store.old.heads.items) }
{
    if store.entries.len() + 1 < store.heads.len() {
        return Ok(high);
    }
    let buckets = 2 * store.heads.len() - 1;
    store.heads.resize(buckets, Link::none())?;
    relist(store);
    Ok(count_from(&store.entries, quarter(buckets)))
}

/// Drops all items but so many, and gives memory back so that there is room for a given number of them.
fn cut<T: Drop>(items: &mut Vec<T>, len: usize, room: usize)
    ensures { items.new.items ≡ take len items.old.items }
{
    items.truncate(len);
    items.shrink_to(room);
}

/// Leaves as few places for numbers and as few buckets as the highest number in use allows, if no text has an upper number.
/// It is given how many have one, and returns how many have one afterwards. It asks for no memory; memory that the
/// allocator refuses to shrink stays.
pub(crate) fn narrow(store: &mut Store, high: usize) -> usize
    requires index { IsTextIndex store.old.entries.items store.old.links.items store.old.heads.items }
    requires room { length store.old.entries.items < length store.old.heads.items }
    requires high { high ≡ in_use_from (quarter (length store.old.heads.items)) store.old.entries.items }
    ensures same { (n : ℕ) → known_at store.new.entries.items n ≡ known_at store.old.entries.items n }
    ensures used { in_use_from 0 store.new.entries.items ≡ in_use_from 0 store.old.entries.items }
    ensures index { IsTextIndex store.new.entries.items store.new.links.items store.new.heads.items }
    ensures room { length store.new.entries.items < length store.new.heads.items }
    ensures high { result ≡ in_use_from (quarter (length store.new.heads.items)) store.new.entries.items }
    ensures tight { AreFewBuckets (length store.new.heads.items) result }
{
    if store.heads.len() <= FIRST_BUCKETS {
        return high;
    }
    if 0 < high {
        return high;
    }
    let top = top_of(&store.entries);
    let buckets = fitting(store.heads.len(), top);
    cut(&mut store.entries, top, buckets);
    cut(&mut store.links, top, buckets);
    cut(&mut store.heads, buckets, buckets);
    relist(store);
    count_from(&store.entries, quarter(buckets))
}
