ghost use Rattle.std.specs.Prelude.{◌≡◌, ℕ, ◌+◌, ◌<◌, ◌≤◌, length, replicate};
ghost use Rattle.djq_dictionary.specs.Chains.{IsChained, IsFalling, IsChainHead, IsLinked, IsLastWith};
ghost use Rattle.djq_dictionary.specs.Chains.{bucket_of, hashes_of, nexts_of};
ghost use Rattle.djq_dictionary.specs.declared.dict.TheConstants.{MOST_TEXTS};

use std::marker::Model;

/// The next number of a chain, or its end.
///
/// Contracts see one past the number, and 0 at the end of the chain.
#[derive(Clone, Copy, Debug)]
pub(crate) struct Chain {
    past: u32,
}

impl Model for Chain {
    ghost use Rattle.std.specs.Prelude.{ℕ};

    ghost Value = { ℕ };

    ghost view = { λ c. c.past };

    ghost inverse = { λ n. record { past = n } };
}

impl Chain {
    /// A chain at its end.
    pub(crate) fn end() -> Chain
        ensures { result ≡ 0 }
    {
        Chain { past: 0 }
    }

    /// A chain whose next number is this one.
    pub(crate) fn at(number: u32) -> Chain
        requires { number < MOST_TEXTS }
        ensures { result ≡ number + 1 }
    {
        Chain { past: number + 1 }
    }
}

/// What the index stores of the text with a number.
#[derive(Clone, Copy, Debug)]
pub(crate) struct Link {
    /// The lower half of its hash.
    pub(crate) hash: u32,
    /// The rest of its chain: the latest text before it in the same bucket.
    pub(crate) next: Chain,
}

/// The bucket of a hash, among so many buckets.
pub(crate) fn bucket_of(hash: u32, buckets: usize) -> usize
    requires { 0 < buckets }
    ensures value { result ≡ bucket_of buckets hash }
    ensures within { result < buckets }
{
    hash as usize & (buckets - 1)
}

/// Puts the link of a number at the front of its bucket's chain, given that those before it are in
/// theirs.
pub(crate) fn put_in_front(links: &mut [Link], heads: &mut [Chain], number: usize)
    requires within { number < length links.old }
    requires few { length links.old ≤ MOST_TEXTS }
    requires some { 0 < length heads.old }
    requires chained { IsChained (hashes_of links.old) (nexts_of links.old) heads.old number }
    ensures chained { IsChained (hashes_of links.new) (nexts_of links.new) heads.new (number + 1) }
    ensures hashes { hashes_of links.new ≡ hashes_of links.old }
{
    let bucket = bucket_of(links[number].hash, heads.len());
    links[number].next = heads[bucket];
    heads[bucket] = Chain::at(number as u32);
}

/// Puts all links into the chains of heads that have none yet.
pub(crate) fn chain_all(links: &mut [Link], heads: &mut [Chain])
    requires few { length links.old ≤ MOST_TEXTS }
    requires some { 0 < length heads.old }
    requires none { heads.old ≡ replicate (length heads.old) 0 }
    ensures chained { IsChained (hashes_of links.new) (nexts_of links.new) heads.new (length links.new) }
    ensures hashes { hashes_of links.new ≡ hashes_of links.old }
{
    for number in 0..links.len() {
        put_in_front(links, heads, number);
    }
}

/// The first number with a hash on the rest of a chain.
///
/// If the chain is the one of a bucket below n, this is the last number below n with the hash.
pub(crate) fn follow(links: &[Link], from: Chain, hash: u32) -> Option<u32>
    requires within { from ≤ length links.now }
    requires falling { IsFalling (nexts_of links.now) }
    ensures { (buckets n : ℕ) → IsLinked buckets (hashes_of links.now) (nexts_of links.now)
        → IsChainHead buckets (hashes_of links.now) (bucket_of buckets hash) n from
        → IsLastWith (hashes_of links.now) hash n result }
{
    let mut rest = from;
    while rest.past != 0 {
        let number = rest.past - 1;
        let link = &links[number as usize];
        if link.hash == hash {
            return Some(number);
        }
        rest = link.next;
    }
    None
}
