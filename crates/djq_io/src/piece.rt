ghost use Rattle.std.specs.Prelude.{◌≡◌, ◌≤◌, ◌↔◌, [], length, take, drop, min, IsTrue, IfOk};

use std::alloc::{AllocError, Global};
use std::marker::Model;

/// Bytes that a call brought or accepted, seen as a list.
#[derive(Debug, Drop)]
pub struct Piece {
    bytes: Vec<u8>,
    from: usize,
}

impl Model for Piece {
    ghost use Rattle.std.specs.Prelude.{ℕ, ◌≤◌, List, length, drop};

    ghost Value = { List ℕ };

    ghost view = { λ p. drop p.from p.bytes.items };

    ghost invariant = { λ p. p.from ≤ length p.bytes.items };
}

impl Piece {
    /// A piece without bytes, which allocates nothing.
    pub fn empty(alloc: Global) -> Self
        ensures { result ≡ [] }
    {
        Piece {
            bytes: Vec::new(alloc),
            from: 0,
        }
    }

    /// A piece of these bytes.
    pub fn of(bytes: Vec<u8>) -> Self
        ensures { result ≡ bytes.items }
    {
        Piece { bytes, from: 0 }
    }

    /// A piece of a copy of these bytes.
    pub fn copy_of(alloc: Global, bytes: &[u8]) -> Result<Self, AllocError>
        ensures { IfOk result (λ piece. piece ≡ bytes.now) }
    {
        Ok(Piece::of(Vec::from_slice(alloc, bytes)?))
    }

    /// The bytes.
    pub fn as_slice(&self) -> &[u8]
        ensures { result.now ≡ self.now }
    {
        &self.bytes[self.from..]
    }

    /// How many bytes it has.
    pub fn len(&self) -> usize
        ensures { result ≡ length self.now }
    {
        self.bytes.len() - self.from
    }

    /// Whether it has no bytes.
    pub fn is_empty(&self) -> bool
        ensures { IsTrue result ↔ (self.now ≡ []) }
    {
        self.len() == 0
    }

    /// Copies as many of the first bytes as fit to the start of a buffer, and returns how many.
    pub fn copy_to(&self, buf: &mut [u8]) -> usize
        ensures n { result ≡ min (length self.now) (length buf.old) }
        ensures copied { take result buf.new ≡ take result self.now }
        ensures length { length buf.new ≡ length buf.old }
    {
        let n = self.len().min(buf.len());
        buf[..n].copy_from_slice(&self.as_slice()[..n]);
        n
    }

    /// Leaves the first bytes out.
    pub fn advance(&mut self, n: usize)
        requires { n ≤ length self.old }
        ensures { self.new ≡ drop n self.old }
    {
        self.from += n;
    }
}
