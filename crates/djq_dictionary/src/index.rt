ghost use Rattle.std.specs.Prelude.{◌≡◌, ◌<◌, ◌++◌, ◌∷◌, [], length, slice_index, IfOk, OnOk};
ghost use Rattle.djq_dictionary.specs.Chains.{IsLastWith};
ghost use Rattle.djq_dictionary.specs.declared.dict.TheConstants.{MOST_TEXTS};

use crate::chain::{Chain, Link, bucket_of, chain_all, follow, put_in_front};
use std::alloc::{AllocError, Global};
use std::marker::Model;

/// How many buckets an index begins with. It is a power of two, and so are all later numbers of them.
const FIRST_BUCKETS: usize = 16;

/// A hashed index: numbers from 0 on, each with the hash of its text.
///
/// Contracts see the hashes by number, and for how many more there is room.
#[derive(Debug, Drop)]
pub(crate) struct Index {
    alloc: Global,
    heads: Vec<Chain>,
    links: Vec<Link>,
}

impl Model for Index {
    ghost use Rattle.djq_dictionary.specs.Index.{Hashes, IsIndex};

    ghost Value = { Hashes };

    ghost use Rattle.std.specs.Prelude.{◌-◌, vec_len, vec_capacity};
    ghost use Rattle.djq_dictionary.specs.Chains.{hashes_of};

    ghost view = { λ i. record { hashes = hashes_of i.links.items; places = vec_capacity i.links - vec_len i.links } };

    ghost invariant = { λ i. IsIndex i.links.items i.heads.items };
}

impl Index {
    /// An index of nothing.
    pub(crate) fn new(alloc: Global) -> Result<Index, AllocError>
        ensures { IfOk result (λ i. i.hashes ≡ []) }
    {
        let heads = vec![in alloc; Chain::end(); FIRST_BUCKETS]?;
        Ok(Index {
            alloc,
            heads,
            links: Vec::new(alloc),
        })
    }

    /// The last number with a hash.
    pub(crate) fn last(&self, hash: u32) -> Option<u32>
        ensures { IsLastWith self.now.hashes hash (length self.now.hashes) result }
    {
        let bucket = bucket_of(hash, self.heads.len());
        follow(&self.links, self.heads[bucket], hash)
    }

    /// The last number before one that has the same hash.
    pub(crate) fn before(&self, number: u32) -> Option<u32>
        requires { number < length self.now.hashes }
        ensures { IsLastWith self.now.hashes (slice_index self.now.hashes number) number result }
    {
        let link = &self.links[number as usize];
        follow(&self.links, link.next, link.hash)
    }

    /// Reserves room for one more number. There are at least as many buckets as numbers afterwards.
    pub(crate) fn reserve(&mut self) -> Result<(), AllocError>
        ensures kept { self.new.hashes ≡ self.old.hashes }
        ensures place { OnOk result (0 < self.new.places) }
    {
        if self.heads.len() <= self.links.len() {
            self.widen()?;
        }
        self.links.reserve(1)?;
        Ok(())
    }

    /// Doubles the buckets.
    fn widen(&mut self) -> Result<(), AllocError>
        ensures { self.new.hashes ≡ self.old.hashes }
    {
        let buckets = self.heads.len().saturating_mul(2);
        let mut heads = vec![in self.alloc; Chain::end(); buckets]?;
        chain_all(&mut self.links, &mut heads);
        self.heads = heads;
        Ok(())
    }

    /// Gives the next number to a hash, in room that was reserved for it.
    pub(crate) fn push(&mut self, hash: u32)
        requires few { length self.old.hashes < MOST_TEXTS }
        requires place { 0 < self.old.places }
        ensures { self.new.hashes ≡ self.old.hashes ++ hash ∷ [] }
    {
        let number = self.links.len();
        let _ = self.links.push(Link {
            hash,
            next: Chain::end(),
        });
        put_in_front(&mut self.links, &mut self.heads, number);
    }
}
