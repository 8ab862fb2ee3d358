ghost use Rattle.std.specs.Prelude.{◌≡◌, ◌<◌, ◌≤◌, ◌↔◌, ◌==◌, ◌++◌, ◌∷◌, [], length, slice_get};
ghost use Rattle.std.specs.Prelude.{Some, Err, IfSome, IfNone, IfOk, OnOk, OnErr, IsOk, Contains};
ghost use Rattle.djq_dictionary.specs.Hash.{hash_of};
ghost use Rattle.djq_dictionary.specs.Known.{AllDifferent, IsUnknown, Learns};

use crate::index::Index;
use crate::refusal::InternRefusal;
use crate::texts::Texts;
use std::alloc::{AllocError, Global};
use std::hash::{FoldHasher, Hasher};
use std::marker::Model;

/// How many texts there may be.
pub const MOST_TEXTS: usize = 4_294_967_295;

/// A one-to-one map between texts and numbers, which only grows.
///
/// Contracts see the list of the texts, all different, in which a text's number is its position.
#[derive(Debug, Drop)]
pub struct Dict {
    texts: Texts,
    index: Index,
}

impl Model for Dict {
    ghost use Rattle.std.specs.Prelude.{List, ℕ};

    ghost Value = { List (List ℕ) };

    ghost use Rattle.djq_dictionary.specs.Dictionary.{IsDictionary};

    ghost view = { λ d. d.texts.texts };

    ghost invariant = { λ d. IsDictionary d.texts.texts d.index.hashes };
}

impl Dict {
    /// The dictionary of no text.
    ///
    /// Fails only out of memory.
    pub fn new(alloc: Global) -> Result<Dict, AllocError>
        ensures { IfOk result (λ d. d ≡ []) }
    {
        Ok(Dict {
            texts: Texts::new(alloc),
            index: Index::new(alloc)?,
        })
    }

    /// How many texts are known. The numbers below are known ones.
    pub fn len(&self) -> usize
        ensures count { result ≡ length self.now }
        ensures few { result ≤ MOST_TEXTS }
        ensures different { AllDifferent self.now }
    {
        self.texts.len()
    }

    /// Whether no text is known.
    pub fn is_empty(&self) -> bool
        ensures { result ≡ (length self.now == 0) }
    {
        self.texts.len() == 0
    }

    /// The text with a number that is known.
    pub fn text(&self, number: u32) -> &[u8]
        requires { number < length self.now }
        ensures { slice_get self.now number ≡ Some result.now }
    {
        self.texts.get(number as usize)
    }

    /// The number of a text, none if and only if the text isn't known.
    pub fn find(&self, text: &[u8]) -> Option<u32>
        ensures known { IfSome result (λ n. slice_get self.now n ≡ Some text.now) }
        ensures unknown { IfNone result (IsUnknown self.now text.now) }
        ensures different { AllDifferent self.now }
    {
        self.find_hashed(text, hash_of(text))
    }

    /// The number of a text, which becomes known if it isn't.
    ///
    /// A known text allocates nothing. For a new one all memory is allocated before it becomes
    /// known, so a refusal leaves all as it was. It is [`InternRefusal::Full`] if and only if the
    /// text is unknown and [`MOST_TEXTS`] are known, and [`InternRefusal::NoMem`] out of memory.
    pub fn intern(&mut self, text: &[u8]) -> Result<u32, InternRefusal>
        ensures number { IfOk result (λ n. slice_get self.new n ≡ Some text.now) }
        ensures learned { OnOk result (Learns self.old text.now self.new) }
        ensures known { Contains self.old text.now → IsOk result }
        ensures full { (result ≡ Err InternRefusal.Full) ↔ ((length self.old ≡ MOST_TEXTS)
            × IsUnknown self.old text.now) }
        ensures err { OnErr result (self.new ≡ self.old) }
        ensures different { AllDifferent self.new }
    {
        let hash = hash_of(text);
        if let Some(number) = self.find_hashed(text, hash) {
            return Ok(number);
        }
        if self.texts.len() == MOST_TEXTS {
            return Err(InternRefusal::Full);
        }
        self.index.reserve()?;
        self.texts.reserve(text.len())?;
        let number = self.texts.len() as u32;
        self.texts.push(text);
        self.index.push(hash);
        Ok(number)
    }

    /// The number of a text whose hash is known: the texts with that hash are compared, the latest first.
    fn find_hashed(&self, text: &[u8], hash: u32) -> Option<u32>
        requires { hash ≡ hash_of text.now }
        ensures known { IfSome result (λ n. slice_get self.now n ≡ Some text.now) }
        ensures unknown { IfNone result (IsUnknown self.now text.now) }
        ensures different { AllDifferent self.now }
    {
        let mut candidate = self.index.last(hash);
        while let Some(number) = candidate {
            if self.texts.get(number as usize) == text {
                return Some(number);
            }
            candidate = self.index.before(number);
        }
        None
    }
}

/// The lower half of a text's hash.
fn hash_of(text: &[u8]) -> u32
    ensures { result ≡ hash_of text.now }
{
    let mut hasher = FoldHasher::default();
    hasher.write(text);
    (hasher.finish() & 0xffff_ffff) as u32
}
