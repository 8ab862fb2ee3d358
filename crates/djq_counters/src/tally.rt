ghost use Rattle.std.specs.Prelude.{◌≡◌, ◌+◌, ◌<◌};

use std::marker::Model;
use std::sync::ledger::{Blank, Book, Ledger, Share};

/// What a lookup by key counts.
const LOOKUP: u64 = 1;

/// What a link that is followed counts.
const LINK: u64 = 1;

/// What a change of one entry counts.
const EDIT: u64 = 1;

/// A counter of the ledger `L`, seen as a number. It can't be cloned or dismantled.
#[derive(Drop)]
pub struct Tally<L: Ledger> {
    book: Book<L>,
    share: Share<L>,
}

impl<L: Ledger> Model for Tally<L> {
    ghost use Rattle.std.specs.Prelude.{ℕ, ◌<◌};

    ghost Value = { ℕ };

    ghost view = { λ t. t.book.total };

    ghost invariant = { λ t. 0 < t.share.parts };
}

impl<L: Ledger> Tally<L> {
    /// A counter at zero. Only this crate makes one: a caller could else count on one of its own.
    pub(crate) fn new(_rt: &HostRuntime, blank: Blank) -> Self
        requires name { blank.name ≡ L.name }
        requires parts { blank.parts ≡ L.parts }
        requires some { 0 < blank.parts }
        ensures { result ≡ 0 }
    {
        let (book, share) = blank.open::<L>();
        Tally { book, share }
    }

    /// Counts a lookup by key.
    #[inline]
    pub fn lookup(&mut self)
        ensures { self.new ≡ self.old + 1 }
    {
        self.book.add(&mut self.share, LOOKUP);
    }

    /// Counts a link that is followed.
    #[inline]
    pub fn link(&mut self)
        ensures { self.new ≡ self.old + 1 }
    {
        self.book.add(&mut self.share, LINK);
    }

    /// Counts a change of one entry.
    #[inline]
    pub fn edit(&mut self)
        ensures { self.new ≡ self.old + 1 }
    {
        self.book.add(&mut self.share, EDIT);
    }
}
