//! Texts between quotes, as a line has them.
ghost use Rattle.std.specs.Prelude.{◌≡◌, ◌∷◌, ◌≤◌, drop, false, length, take, IfOk};
ghost use Rattle.djq_model.specs.declared.value.TheConstants.{TEXT_BYTES};
ghost use Rattle.djq_value.specs.Token.{text_in};
ghost use Rattle.djq_value.specs.Quoted.{put_front, stepped};
ghost use Rattle.djq_value.specs.TextAt.{TextEnds, EndsAt, HasText, text_at};
ghost use Rattle.djq_model.specs.Data.{Bytes};

use crate::print::is_escaped;
use djq_model::{NoMem, Text};
use std::alloc::Global;
use std::marker::Model;

/// A text as a line spells it. Contracts see the bytes that it denotes.
#[derive(Debug, Drop)]
pub struct Quoted<'a> {
    // the bytes after the opening quote, to the line's end
    from: &'a [u8],
    // the place after the closing quote
    end: usize,
    // the number of bytes of the text
    len: usize,
}

impl<'a> Model for Quoted<'a> {
    ghost use Rattle.std.specs.Prelude.{List, ℕ};
    ghost use Rattle.djq_value.specs.TextAt.{EndsAt, text_at};

    ghost Value = { List ℕ };

    ghost view = { λ q. text_at q.from.now };

    ghost invariant = { λ q. EndsAt q.from.now q.end q.len };
}

impl<'a> Quoted<'a> {
    /// The text whose opening quote is before these bytes.
    pub(crate) fn new(from: &'a [u8], end: usize, len: usize) -> Self
        requires { EndsAt from.now end len }
        ensures { result ≡ text_at from.now }
    {
        Quoted { from, end, len }
    }

    /// The number of bytes of the text.
    pub fn len(&self) -> usize
        ensures { result ≡ length self.now }
    {
        self.len
    }

    /// The text, copied.
    pub fn to_text(&self, alloc: Global) -> Result<Text, NoMem>
        requires { length self.now ≤ TEXT_BYTES }
        ensures { IfOk result (λ text. text ≡ self.now) }
    {
        Ok(Text::new(copied(alloc, self.from, self.end, self.len)?))
    }
}

/// The meaning of a byte of a text.
#[derive(Clone, Copy, Debug)]
pub(crate) enum Step {
    // The closing quote.
    End,
    // A backslash, which begins an escape.
    Backslash,
    // A byte of the text.
    Byte(u8),
    // Nothing that a text may have there.
    Bad,
}

/// The meaning of a byte, after a backslash or not.
fn step_of(escape: bool, byte: u8) -> Step
    ensures { (rest : Bytes) → text_in escape (byte ∷ rest) ≡ stepped result rest }
{
    match (escape, byte) {
        (true, b'"' | b'\\') => Step::Byte(byte),
        (true, b'n') => Step::Byte(b'\n'),
        (true, _) => Step::Bad,
        (false, b'"') => Step::End,
        (false, b'\\') => Step::Backslash,
        (false, b'\n') => Step::Bad,
        (false, _) => Step::Byte(byte),
    }
}

/// The end of the text that begins here, after its closing quote, and the number of its bytes.
pub(crate) fn text_end(bytes: &[u8]) -> Option<(usize, usize)>
    ensures { TextEnds bytes.now result }
{
    text_end_from(bytes, plain_len(bytes))
}

/// The number of bytes at the front that denote themselves, whatever follows them. In a function of
/// its own, the loop is short.
#[inline(never)]
fn plain_len(bytes: &[u8]) -> usize
    ensures within { result ≤ length bytes.now }
    ensures read { text_in false bytes.now
        ≡ put_front (take result bytes.now) (text_in false (drop result bytes.now)) }
{
    let mut len = 0;
    'plain: while len < bytes.len() && !is_escaped(bytes[len]) {
        len += 1;
    }
    len
}

/// The same end and number, given so many bytes at the front that denote themselves.
fn text_end_from(bytes: &[u8], plain: usize) -> Option<(usize, usize)>
    requires within { plain ≤ length bytes.now }
    requires read { text_in false bytes.now
        ≡ put_front (take plain bytes.now) (text_in false (drop plain bytes.now)) }
    ensures { TextEnds bytes.now result }
{
    let mut escape = false;
    let mut len = plain;
    for at in plain..bytes.len() {
        match step_of(escape, bytes[at]) {
            Step::End => return Some((at + 1, len)),
            Step::Backslash => escape = true,
            Step::Byte(_) => {
                escape = false;
                len += 1;
            }
            Step::Bad => return None,
        }
    }
    None
}

/// The bytes of the text that begins here, in one piece if it has no escape.
fn copied(alloc: Global, bytes: &[u8], end: usize, len: usize) -> Result<Vec<u8>, NoMem>
    requires ends { EndsAt bytes.now end len }
    requires few { len ≤ TEXT_BYTES }
    ensures { IfOk result (λ text. text.items ≡ text_at bytes.now) }
{
    if end == len + 1 {
        Ok(Vec::from_slice(alloc, &bytes[..len])?)
    } else {
        unescaped(alloc, bytes, len)
    }
}

/// The bytes of the text that begins here, one by one.
fn unescaped(alloc: Global, bytes: &[u8], len: usize) -> Result<Vec<u8>, NoMem>
    requires { HasText bytes.now len }
    ensures { IfOk result (λ text. text.items ≡ text_at bytes.now) }
{
    let mut text = Vec::with_capacity(alloc, len)?;
    let mut escape = false;
    for byte in bytes {
        match step_of(escape, *byte) {
            Step::Backslash => escape = true,
            Step::Byte(byte) => {
                escape = false;
                text.push(byte)?;
            }
            Step::End | Step::Bad => return Ok(text),
        }
    }
    Ok(text)
}
