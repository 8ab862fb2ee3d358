//! Bytes that are cut at a sign.
ghost use Rattle.std.specs.Prelude.{◌≡◌, ◌≤◌, length};
ghost use Rattle.std.specs.Option.{option_map};
ghost use Rattle.djq_model.specs.Parts.{before, behind};
ghost use Rattle.djq_mirror.specs.Parts.{TakesFirstPart, parts_left};

use memchr::memchr;
use std::marker::Model;

/// The bytes before the first of these signs, or all, and the bytes after it, if there is one.
pub(crate) fn split_at(bytes: &[u8], sign: u8) -> (&[u8], Option<&[u8]>)
    ensures within { length result.0.now ≤ length bytes.now }
    ensures before { result.0.now ≡ before sign bytes.now }
    ensures behind { option_map (λ rest. rest.now) result.1 ≡ behind sign bytes.now }
{
    match memchr(sign, bytes) {
        Some(at) => (&bytes[..at], Some(&bytes[at + 1..])),
        None => (bytes, None),
    }
}

/// Gives the parts of bytes between signs, one by one. Contracts see the list of those that are left.
#[derive(Debug, Drop)]
pub(crate) struct Parts<'a> {
    rest: Option<&'a [u8]>,
    sign: u8,
}

impl<'a> Model for Parts<'a> {
    ghost use Rattle.std.specs.Prelude.{List, ℕ};

    ghost Value = { List (List ℕ) };

    ghost use Rattle.std.specs.Option.{option_map};
    ghost use Rattle.djq_mirror.specs.Parts.{parts_left};

    ghost view = { λ p. parts_left p.sign (option_map (λ rest. rest.now) p.rest) };
}

impl<'a> Parts<'a> {
    /// The parts of the bytes after a sign, if there is one.
    pub(crate) fn behind(rest: Option<&'a [u8]>, sign: u8) -> Self
        ensures { result ≡ parts_left sign (option_map (λ behind. behind.now) rest.entry) }
    {
        Parts { rest, sign }
    }

    /// The next part.
    pub(crate) fn next(&mut self) -> Option<&'a [u8]>
        ensures { TakesFirstPart self.old result self.new }
    {
        let bytes = self.rest?;
        let (part, rest) = split_at(bytes, self.sign);
        self.rest = rest;
        Some(part)
    }
}
