//! What has a number: a text with its uses, or nothing.
ghost use Rattle.std.specs.Prelude.{◌≡◌, ◌<◌, IsTrue, IsSome, Some, None, is_some};
ghost use Rattle.djq_texts.specs.Known.{Known, uses_of, one_if_used, with_more, with_less};
ghost use Rattle.djq_texts.specs.declared.entry.TheConstants.{MOST_USES};

use std::alloc::Global;
use std::marker::Model;

/// How many uses of one text are counted.
pub const MOST_USES: u64 = 18_446_744_073_709_551_615;

/// What has a number. Contracts see the text with its uses, or none if the number is free.
#[derive(Debug, Drop)]
pub(crate) struct Entry {
    uses: u64,
    bytes: Vec<u8>,
}

impl Model for Entry {
    ghost use Rattle.std.specs.Prelude.{Option};
    ghost use Rattle.djq_texts.specs.Known.{Known, number_entry};

    ghost Value = { Option Known };

    ghost view = { λ e. number_entry e.uses e.bytes.items };
}

impl Entry {
    /// A free number. It allocates nothing.
    pub(crate) fn free(alloc: Global) -> Entry
        ensures { result ≡ None }
    {
        Entry {
            uses: 0,
            bytes: Vec::new(alloc),
        }
    }

    /// A text of one use.
    pub(crate) fn used(bytes: Vec<u8>) -> Entry
        ensures { result ≡ Some (record { bytes = bytes.items; uses = 1 }) }
    {
        Entry { uses: 1, bytes }
    }

    /// Whether it is a text.
    pub(crate) fn is_used(&self) -> bool
        ensures { result ≡ is_some self.now }
    {
        self.uses != 0
    }

    /// One for a text, none for a number that is free.
    pub(crate) fn count(&self) -> usize
        ensures { result ≡ one_if_used self.now }
    {
        if self.uses == 0 { 0 } else { 1 }
    }

    /// How often the text is used; 0 if the number is free.
    pub(crate) fn uses(&self) -> u64
        ensures uses { result ≡ uses_of self.now }
        ensures used { (k : Known) → self.now ≡ Some k → 0 < k.uses }
    {
        self.uses
    }

    /// The text.
    pub(crate) fn bytes(&self) -> &[u8]
        requires { IsSome self.now }
        ensures { (k : Known) → self.now ≡ Some k → result.now ≡ k.bytes }
    {
        &self.bytes
    }

    /// Whether it is this text.
    pub(crate) fn is_text(&self, text: &[u8]) -> bool
        ensures yes { IsTrue result → self.now ≡ Some (record { bytes = text.now; uses = uses_of self.now }) }
        ensures no { (k : Known) → self.now ≡ Some k → k.bytes ≡ text.now → IsTrue result }
    {
        self.uses != 0 && self.bytes.as_slice() == text
    }

    /// Adds a use.
    pub(crate) fn add_use(&mut self)
        requires some { IsSome self.old }
        requires few { uses_of self.old < MOST_USES }
        ensures { self.new ≡ with_more self.old }
    {
        self.uses += 1;
    }

    /// Removes a use that isn't the last.
    pub(crate) fn lose_use(&mut self)
        requires { 1 < uses_of self.old }
        ensures { self.new ≡ with_less self.old }
    {
        self.uses -= 1;
    }
}
