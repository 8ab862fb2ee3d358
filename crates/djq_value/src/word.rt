//! The kinds of a word: a keyword or a name.
ghost use Rattle.std.specs.Prelude.{◌≡◌, Some, None, if◌then◌else◌};
ghost use Rattle.std.specs.List.{list_all};
ghost use Rattle.djq_model.specs.Data.{bytes_eq};
ghost use Rattle.djq_value.specs.Literal.{is_lower, is_name as is_name_of};
ghost use Rattle.djq_value.specs.Lexing.{TakesName, TakesWord};
ghost use Rattle.djq_value.specs.Small.{IsNameAt, IsTailAt};
ghost use Rattle.djq_value.specs.Word.{is_tail_of, may_follow_of};

use crate::lexer::{Lexer, Token};
use djq_model::Name;

/// The most bytes that a name has after its first.
const MORE_BYTES: usize = 31;

/// Whether a word is this text.
pub fn is_text(word: &[u8], text: &[u8]) -> bool
    ensures { result ≡ bytes_eq word.now text.now }
{
    word == text
}

/// The name that a word is: a letter, then letters, digits and `_`, 32 bytes at most.
pub fn read_name(word: &[u8]) -> Option<Name>
    ensures { result ≡ (if is_name_of word.now then Some word.now else None) }
{
    if is_name(word) {
        Some(Name::new(word))
    } else {
        None
    }
}

/// Whether a word is a name.
pub fn is_name(word: &[u8]) -> bool
    ensures { result ≡ is_name_of word.now }
{
    if word.is_empty() {
        return false;
    }
    let tail = is_tail(&word[1..]);
    is_letter(word[0]) && tail
}

/// Whether these may be the bytes of a name after its first.
fn is_tail(bytes: &[u8]) -> bool
    ensures { result ≡ is_tail_of bytes.now }
{
    all_follow(bytes) && bytes.len() <= MORE_BYTES
}

/// Whether each of these bytes may occur in a name after its first.
fn all_follow(bytes: &[u8]) -> bool
    ensures { result ≡ list_all may_follow_of bytes.now }
{
    bytes.iter().all(|b| may_follow(*b))
}

/// Whether a byte is a small letter, as a name begins with.
fn is_letter(byte: u8) -> bool
    ensures { result ≡ is_lower byte }
{
    byte >= b'a' && byte <= b'z'
}

/// Whether a byte may occur in a name after its first.
fn may_follow(byte: u8) -> bool
    ensures { result ≡ may_follow_of byte }
{
    is_letter(byte) || (byte >= b'0' && byte <= b'9') || byte == b'_'
}

/// The number of bytes of the name at the front of bytes, if a space is after it; none if the name
/// ends in another way, or there is no name.
#[inline]
pub(crate) fn spaced_name_len(bytes: &[u8]) -> Option<usize>
    ensures { IsNameAt bytes.now result }
{
    if bytes.is_empty() || !is_letter(bytes[0]) {
        return None;
    }
    match spaced_tail_len(&bytes[1..]) {
        Some(len) => Some(len + 1),
        None => None,
    }
}

/// The same of the bytes after a name's first.
#[inline]
fn spaced_tail_len(bytes: &[u8]) -> Option<usize>
    ensures { IsTailAt bytes.now result }
{
    let mut len = 0;
    'tail: while len < bytes.len() && bytes[len] != b' ' {
        if !may_follow(bytes[len]) {
            return None;
        }
        len += 1;
    }
    if len < bytes.len() && len <= MORE_BYTES {
        Some(len)
    } else {
        None
    }
}

/// The next word, if the next token is one. The next token is consumed in any case.
pub fn next_word<'a>(lexer: &mut Lexer<'a>) -> Option<&'a [u8]>
    ensures { TakesWord lexer.old result lexer.new }
{
    match lexer.plain_word() {
        Some(word) => Some(word),
        None => match lexer.next() {
            Some(token) => token.word(),
            None => None,
        },
    }
}

/// The next name, if the next token is one. The next token is consumed in any case.
pub fn next_name(lexer: &mut Lexer<'_>) -> Option<Name>
    ensures { TakesName lexer.old result lexer.new }
{
    match next_word(lexer) {
        Some(word) => read_name(word),
        None => None,
    }
}
