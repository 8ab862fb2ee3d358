//! The texts in use.
ghost use Rattle.std.specs.Prelude.{◌≡◌, ◌↔◌, ℕ, ◌<◌, ◌≤◌, ◌==◌, [], length, IsSome, Some, None};
ghost use Rattle.std.specs.Prelude.{MatchOption, IfOk, OnOk, OnErr, IsOk, Err};
ghost use Rattle.djq_arena.specs.declared.link.TheConstants.{SLOTS};
ghost use Rattle.djq_texts.specs.Known.{Known, known_at, uses_of, texts_in_use, with_more, with_less, HasNumber};
ghost use Rattle.djq_texts.specs.Known.{HasNoNumber, IsOneToOne, IsTight, Sets, Enters, TakesUse, TakesPlace, HasMost, IsFullFor};
ghost use Rattle.djq_texts.specs.Hash.{text_hash};
ghost use Rattle.djq_texts.specs.declared.entry.TheConstants.{MOST_USES};

use crate::entry::{Entry, MOST_USES};
use crate::links::link_of;
use crate::refusal::TextsRefusal;
use crate::room::{first_buckets, narrow, share, widen};
use crate::store::{Store, append, entry_bucket, find_from, replace, text_bucket, text_hash};
use djq_arena::SLOTS;
use std::alloc::{AllocError, Global};
use std::marker::Model;

/// The texts in use, each with its number and its uses.
///
/// Contracts see a list with a place for each number: the text that has it with its uses, or nothing. A number past the
/// list's end is free.
#[derive(Drop)]
pub struct Texts {
    store: Store,
    /// How many texts are in use.
    used: usize,
    /// How many of them have an upper number. When the last of these is forgotten, the store becomes smaller.
    high: usize,
    alloc: Global,
}

impl Model for Texts {
    ghost use Rattle.std.specs.Prelude.{List, Option};
    ghost use Rattle.djq_texts.specs.Known.{Known};
    ghost use Rattle.djq_texts.specs.Index.{AreTexts};

    ghost Value = { List (Option Known) };

    ghost view = { λ t. t.store.entries.items };

    ghost invariant = { λ t. AreTexts t.store.entries.items t.store.links.items t.store.heads.items t.used t.high };
}

impl Texts {
    /// No texts. It fails only out of memory.
    pub fn new(alloc: Global) -> Result<Texts, AllocError>
        ensures { IfOk result (λ t. t ≡ []) }
    {
        let store = Store {
            entries: Vec::new(alloc),
            links: Vec::new(alloc),
            heads: first_buckets(alloc)?,
        };
        Ok(Texts {
            store,
            used: 0,
            high: 0,
            alloc,
        })
    }

    /// What holds of all texts in use. It does nothing.
    pub fn laws(&self)
        ensures one { IsOneToOne self.now }
        ensures few { length self.now ≤ SLOTS }
        ensures tight { IsTight self.now }
    {
        let _ = &self.store;
    }

    /// How many texts are in use.
    pub fn len(&self) -> usize
        ensures { result ≡ texts_in_use self.now }
    {
        self.used
    }

    /// Whether no text is in use.
    pub fn is_empty(&self) -> bool
        ensures { result ≡ (texts_in_use self.now == 0) }
    {
        self.used == 0
    }

    /// The number of a text; none if and only if it isn't in use.
    pub fn find(&self, text: &[u8]) -> Option<u32>
        ensures { MatchOption result (HasNoNumber self.now text.now) (λ n. HasNumber self.now n text.now) }
    {
        self.find_hashed(text, text_hash(text))
    }

    /// The same for a text whose hash is known.
    fn find_hashed(&self, text: &[u8], hash: u64) -> Option<u32>
        requires { hash ≡ text_hash text.now }
        ensures found { MatchOption result (HasNoNumber self.now text.now) (λ n. HasNumber self.now n text.now) }
        ensures one { IsOneToOne self.now }
    {
        let bucket = text_bucket(self.store.heads.len(), hash);
        find_from(&self.store, link_of(&self.store.heads, bucket), text)
    }

    /// The text with a number that is in use.
    pub fn text(&self, number: u32) -> &[u8]
        requires { IsSome (known_at self.now number) }
        ensures { HasNumber self.now number result.now }
    {
        self.store.entries[number as usize].bytes()
    }

    /// How often the text with a number that is in use is used.
    pub fn uses(&self, number: u32) -> u64
        requires { IsSome (known_at self.now number) }
        ensures uses { result ≡ uses_of (known_at self.now number) }
        ensures some { 0 < result }
    {
        self.store.entries[number as usize].uses()
    }

    /// Adds a use of a text, and returns its number. A text that isn't in use is given a free number, or the next one if
    /// none is free.
    ///
    /// # Errors
    ///
    /// [`TextsRefusal::Full`] if the text isn't in use and [`SLOTS`] texts are, or if it has [`MOST_USES`] uses; else
    /// [`TextsRefusal::NoMem`] out of memory, of a text that isn't in use alone. Nothing has changed.
    pub fn take_use(&mut self, text: &[u8]) -> Result<u32, TextsRefusal>
        ensures ok { IfOk result (λ n. TakesUse self.old text.now n self.new) }
        ensures number { IfOk result (λ n. HasNumber self.new n text.now) }
        ensures place { IfOk result (λ n. TakesPlace self.old n) }
        ensures known { (n : ℕ) → HasNumber self.old n text.now → (HasMost self.old text.now → ⊥) → IsOk result }
        ensures full { (result ≡ Err TextsRefusal.Full) ↔ IsFullFor self.old text.now }
        ensures err { OnErr result (self.new ≡ self.old) }
    {
        let hash = text_hash(text);
        match self.find_hashed(text, hash) {
            Some(number) => {
                if self.uses(number) == MOST_USES {
                    return Err(TextsRefusal::Full);
                }
                self.add_use(number);
                Ok(number)
            }
            None => {
                if self.used == SLOTS {
                    return Err(TextsRefusal::Full);
                }
                Ok(self.enter(text, hash)?)
            }
        }
    }

    /// Adds a use of the text with a number that is in use. It asks for no memory.
    pub fn add_use(&mut self, number: u32)
        requires used { IsSome (known_at self.old number) }
        requires few { uses_of (known_at self.old number) < MOST_USES }
        ensures { Sets self.old number (with_more (known_at self.old number)) self.new }
    {
        self.store.entries[number as usize].add_use();
    }

    /// Gives a use back of the text with a number that is in use. With its last use the text is forgotten, and its number
    /// is free. It asks for no memory.
    ///
    /// The memory of a text that is forgotten is given back. If texts are left only among the lowest quarter of the places,
    /// the store is made smaller, so that it has at most sixteen places or fewer than four times as many as up to the
    /// highest number in use ([`Texts::laws`]). Memory that the allocator refuses to shrink stays.
    pub fn give_back(&mut self, number: u32)
        requires { IsSome (known_at self.old number) }
        ensures { Sets self.old number (with_less (known_at self.old number)) self.new }
    {
        if self.store.entries[number as usize].uses() > 1 {
            self.store.entries[number as usize].lose_use();
        } else {
            self.forget(number);
        }
    }

    /// Forgets a text with its last use. Its number is free then.
    fn forget(&mut self, number: u32)
        requires { uses_of (known_at self.old number) ≡ 1 }
        ensures { Sets self.old number None self.new }
    {
        let buckets = self.store.heads.len();
        let from = entry_bucket(&self.store.entries[number as usize], buckets);
        replace(&mut self.store, number, from, Entry::free(self.alloc), 0);
        self.used -= 1;
        let high = self.high - share(number, buckets);
        self.high = narrow(&mut self.store, high);
    }

    /// Puts in a text that isn't in use, under a free number or the next one. Out of memory all stays as it was.
    fn enter(&mut self, text: &[u8], hash: u64) -> Result<u32, AllocError>
        requires hash { hash ≡ text_hash text.now }
        requires unknown { HasNoNumber self.old text.now }
        requires few { texts_in_use self.old < SLOTS }
        ensures ok { IfOk result (λ n. Enters self.old text.now n self.new) }
        ensures place { IfOk result (λ n. TakesPlace self.old n) }
        ensures err { OnErr result (self.new ≡ self.old) }
    {
        match link_of(&self.store.heads, 0).get() {
            Some(number) => {
                self.reuse(number, text, hash)?;
                Ok(number)
            }
            None => self.extend(text, hash),
        }
    }

    /// Puts in a text that isn't in use, under a number that is free.
    fn reuse(&mut self, number: u32, text: &[u8], hash: u64) -> Result<(), AllocError>
        requires hash { hash ≡ text_hash text.now }
        requires unknown { HasNoNumber self.old text.now }
        requires given { number < length self.old }
        requires free { known_at self.old number ≡ None }
        ensures ok { OnOk result (Enters self.old text.now number self.new) }
        ensures err { OnErr result (self.new ≡ self.old) }
    {
        let entry = Entry::used(Vec::from_slice(self.alloc, text)?);
        let buckets = self.store.heads.len();
        replace(
            &mut self.store,
            number,
            0,
            entry,
            text_bucket(buckets, hash),
        );
        self.used += 1;
        self.high += share(number, buckets);
        Ok(())
    }

    /// Inserts a text that isn't in use, under the next number, if all are in use.
    fn extend(&mut self, text: &[u8], hash: u64) -> Result<u32, AllocError>
        requires hash { hash ≡ text_hash text.now }
        requires unknown { HasNoNumber self.old text.now }
        requires few { length self.old < SLOTS }
        requires full { (n : ℕ) → n < length self.old → IsSome (known_at self.old n) }
        ensures ok { IfOk result (λ n. Enters self.old text.now n self.new) }
        ensures place { IfOk result (λ n. n ≡ length self.old) }
        ensures err { OnErr result (self.new ≡ self.old) }
    {
        self.high = widen(&mut self.store, self.high)?;
        self.store.entries.reserve(1)?;
        self.store.links.reserve(1)?;
        let entry = Entry::used(Vec::from_slice(self.alloc, text)?);
        let buckets = self.store.heads.len();
        let number = append(&mut self.store, entry, text_bucket(buckets, hash));
        self.used += 1;
        self.high += share(number, buckets);
        Ok(number)
    }
}
