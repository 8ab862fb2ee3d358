//! Texts by their numbers, with the index that leads back.
ghost use Rattle.std.specs.Prelude.{◌≡◌, ◌<◌, ◌≤◌, ◌++◌, ◌∷◌, [], length, Some, None, IfOk, OnOk, OnErr};
ghost use Rattle.std.specs.Prelude.{MatchOption, slice_set, replicate, vec_len, vec_capacity};
ghost use Rattle.djq_arena.specs.Buckets.{link_at};
ghost use Rattle.djq_arena.specs.declared.link.TheConstants.{SLOTS};
ghost use Rattle.djq_texts.specs.Known.{HasNumber, HasNoNumber};
ghost use Rattle.djq_texts.specs.Hash.{text_hash};
ghost use Rattle.djq_texts.specs.Index.{text_bucket, place, falls, IsTextIndex};

use crate::entry::Entry;
use crate::links::{link_of, push_bucket, unlist};
use djq_arena::Link;
use std::hash::{FoldHasher, Hasher};

/// How many buckets there are at first: sixteen for texts, and the one of the free numbers. The number of those for
/// texts stays a power of two.
pub(crate) const FIRST_BUCKETS: usize = 17;

/// What has each number, and the chains of the buckets.
#[derive(Drop)]
pub(crate) struct Store {
    pub(crate) entries: Vec<Entry>,
    pub(crate) links: Vec<Link>,
    pub(crate) heads: Vec<Link>,
}

/// The hash of a text.
#[tactic(auto, unfolding(crate::specs::Hash::text_hash))]
pub(crate) fn text_hash(text: &[u8]) -> u64
    ensures { result ≡ text_hash text.now }
{
    let mut hasher = FoldHasher::default();
    hasher.write(text);
    hasher.finish()
}

/// The bucket of a hash, of so many.
#[tactic(auto, unfolding(crate::specs::Index::text_bucket))]
pub(crate) fn text_bucket(buckets: usize, hash: u64) -> usize
    requires { 1 < buckets }
    ensures value { result ≡ text_bucket buckets hash }
    ensures within { result < buckets }
{
    (hash as usize & (buckets - 2)) + 1
}

/// The bucket of what has a number, of so many.
pub(crate) fn entry_bucket(entry: &Entry, buckets: usize) -> usize
    requires { 1 < buckets }
    ensures value { result ≡ place buckets entry.now }
    ensures within { result < buckets }
{
    if entry.is_used() {
        text_bucket(buckets, text_hash(entry.bytes()))
    } else {
        0
    }
}

/// The number of a text, by a walk through its bucket from the head on.
pub(crate) fn find_from(store: &Store, head: Link, text: &[u8]) -> Option<u32>
    requires index { IsTextIndex store.now.entries.items store.now.links.items store.now.heads.items }
    requires head { head ≡ link_at store.now.heads.items (text_bucket (length store.now.heads.items) (text_hash text.now)) }
    ensures { MatchOption result (HasNoNumber store.now.entries.items text.now)
        (λ n. HasNumber store.now.entries.items n text.now) }
{
    let mut at = head;
    while let Some(number) = at.get() {
        if store.entries[number as usize].is_text(text) {
            return Some(number);
        }
        at = link_of(&store.links, number as usize);
    }
    None
}

/// Gives a number to something else, whose bucket is given.
pub(crate) fn replace(store: &mut Store, number: u32, from: usize, entry: Entry, to: usize)
    requires index { IsTextIndex store.old.entries.items store.old.links.items store.old.heads.items }
    requires number { number < length store.old.entries.items }
    requires from { from ≡ falls (length store.old.heads.items) store.old.entries.items number }
    requires to { to ≡ place (length store.old.heads.items) entry }
    ensures entries { store.new.entries.items ≡ slice_set store.old.entries.items number entry }
    ensures heads { length store.new.heads.items ≡ length store.old.heads.items }
    ensures index { IsTextIndex store.new.entries.items store.new.links.items store.new.heads.items }
{
    unlist(&mut store.links, &mut store.heads, from, number);
    push_bucket(&mut store.links, &mut store.heads, to, number);
    store.entries[number as usize] = entry;
}

/// Gives the next number that was never given, in room that was reserved for it. The bucket is given.
pub(crate) fn append(store: &mut Store, entry: Entry, to: usize) -> u32
    requires index { IsTextIndex store.old.entries.items store.old.links.items store.old.heads.items }
    requires few { length store.old.entries.items < SLOTS }
    requires place { vec_len store.old.entries < vec_capacity store.old.entries }
    requires link { vec_len store.old.links < vec_capacity store.old.links }
    requires to { to ≡ place (length store.old.heads.items) entry }
    ensures number { result ≡ length store.old.entries.items }
    ensures entries { store.new.entries.items ≡ store.old.entries.items ++ entry ∷ [] }
    ensures heads { length store.new.heads.items ≡ length store.old.heads.items }
    ensures index { IsTextIndex store.new.entries.items store.new.links.items store.new.heads.items }
{
    let number = store.entries.len() as u32;
    store.entries.push_reserved(entry);
    store.links.push_reserved(Link::none());
    push_bucket(&mut store.links, &mut store.heads, to, number);
    number
}
