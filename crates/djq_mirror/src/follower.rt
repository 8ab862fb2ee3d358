//! Pieces of what a session was sent, followed line by line.
ghost use Rattle.std.specs.Prelude.{◌≡◌, []};
ghost use Rattle.djq_mirror.specs.Inputs.{HasNoLf};
ghost use Rattle.djq_mirror.specs.Follow.{TakesPiece, TakesLine, FollowsLine, KeepsFront, HaltsAtEnd, IsHaltLine};

use crate::{Mirror, MirrorRefusal, REPLY_LINE_BYTES};
use memchr::memchr;
use std::alloc::Global;
use std::marker::Model;

/// Why bytes aren't followed any further.
#[derive(Clone, Copy, Debug, PartialEq, Eq)]
pub(crate) enum Halt {
    /// This line, counted from 1, can't be followed.
    Outside(u64),
    /// There were more lines than can be counted.
    TooMany,
    /// Out of memory.
    NoMem,
}

/// A mirror, how many lines it has followed, and the front of a line that has begun. Contracts see a
/// record, `Following`.
#[derive(Drop)]
pub(crate) struct Follower {
    mirror: Mirror,
    begun: Vec<u8>,
    count: u64,
}

impl Model for Follower {
    ghost use Rattle.djq_mirror.specs.Inputs.{HasNoLf};
    ghost use Rattle.djq_mirror.specs.Follow.{Following};

    ghost Value = { Following };

    ghost view = { λ f. record {
      name = f.mirror.name;
      held = f.mirror.held;
      begun = f.begun.items;
      count = f.count;
    } };

    ghost invariant = { λ f. HasNoLf f.begun.items };
}

impl Follower {
    /// A mirror that has followed no line.
    pub(crate) fn new(alloc: Global, mirror: Mirror) -> Self
        ensures name { result.name ≡ mirror.name }
        ensures held { result.held ≡ mirror.held }
        ensures begun { result.begun ≡ [] }
        ensures count { result.count ≡ 0 }
    {
        Follower {
            mirror,
            begun: Vec::new(alloc),
            count: 0,
        }
    }

    /// The mirror.
    pub(crate) fn into_mirror(self) -> Mirror
        ensures name { result.name ≡ self.name }
        ensures held { result.held ≡ self.held }
    {
        self.mirror
    }

    /// Follows the lines that a piece ends, and stores the front of one that it begins. It returns why
    /// it follows no further, if it doesn't.
    pub(crate) fn feed(&mut self, piece: &[u8]) -> Option<Halt>
        ensures { TakesPiece self.old piece.now result self.new }
    {
        // what has begun is known from here on to have no LF
        let _ = &self.begun;
        let mut rest = piece;
        'lines: while let Some(at) = memchr(b'\n', rest) {
            if let Some(halt) = self.take_line(&rest[..at]) {
                return Some(halt);
            }
            rest = &rest[at + 1..];
        }
        self.keep_front(rest)
    }

    /// The number of the line that has begun and wasn't ended, if there is one: the reason to follow no
    /// further at the end of the input.
    pub(crate) fn end(&self) -> Option<Halt>
        ensures { HaltsAtEnd self.now result }
    {
        if self.begun.is_empty() {
            return None;
        }
        Some(next_line(self.count))
    }

    /// Follows the line whose last bytes these are.
    fn take_line(&mut self, last: &[u8]) -> Option<Halt>
        requires { HasNoLf last.now }
        ensures { TakesLine self.old last.now result self.new }
    {
        let Some(number) = self.count.checked_add(1) else {
            return Some(Halt::TooMany);
        };
        match self.follow_line(last) {
            Ok(()) => {
                self.count = number;
                None
            }
            Err(MirrorRefusal::Outside) => Some(Halt::Outside(number)),
            Err(MirrorRefusal::NoMem) => Some(Halt::NoMem),
        }
    }

    /// Hands the mirror the line whose last bytes these are.
    fn follow_line(&mut self, last: &[u8]) -> Result<(), MirrorRefusal>
        requires { HasNoLf last.now }
        ensures { FollowsLine self.old last.now result self.new }
    {
        if self.begun.is_empty() {
            return self.mirror.line(last);
        }
        if self.begun.extend_from_slice(last).is_err() {
            return Err(MirrorRefusal::NoMem);
        }
        let followed = self.mirror.line(&self.begun);
        self.begun.clear();
        followed
    }

    /// Stores the front of a line.
    fn keep_front(&mut self, front: &[u8]) -> Option<Halt>
        requires { HasNoLf front.now }
        ensures { KeepsFront self.old front.now result self.new }
    {
        if self.begun.extend_from_slice(front).is_err() {
            return Some(Halt::NoMem);
        }
        if self.begun.len() <= REPLY_LINE_BYTES {
            return None;
        }
        Some(next_line(self.count))
    }
}

/// The number after this one, as that of a line that can't be followed.
fn next_line(count: u64) -> Halt
    ensures { IsHaltLine count result }
{
    match count.checked_add(1) {
        Some(number) => Halt::Outside(number),
        None => Halt::TooMany,
    }
}
