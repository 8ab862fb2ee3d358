ghost use Rattle.std.specs.Prelude.{◌≡◌, ◌↔◌, [], false, IsTrue, ◌<◌, ◌≤◌, Some, drop, length};
ghost use Rattle.std.specs.Prelude.{take};
ghost use Rattle.std.specs.Option.{option_copied};
ghost use Rattle.djq_value.specs.Token.{less_front, greater_front, not_front, behind_spaces, behind_word};
ghost use Rattle.djq_value.specs.Token.{ends_word as ends_word_of, may_end as may_end_of};
ghost use Rattle.djq_value.specs.Token.{text_front, text_in, token_front, tokens, word_front};
ghost use Rattle.djq_value.specs.Lexing.{TakesToken, lexeme_of, word_of};
ghost use Rattle.djq_value.specs.Small.{TakesCloseName, TakesPlainWord, TakesSmall};

use crate::number::small_front;
use crate::quoted::{Quoted, text_end};
use crate::word::spaced_name_len;
use djq_model::Operator;
use std::marker::Model;

/// A token of a line.
#[derive(Debug, Drop)]
pub enum Token<'a> {
    /// A run of bytes that are no spaces and no signs.
    Word(&'a [u8]),
    /// A text between quotes.
    Text(Quoted<'a>),
    /// `(`.
    Open,
    /// `)`.
    Close,
    /// `,`.
    Comma,
    /// `<-`.
    Arrow,
    /// The sign of a comparison.
    Operator(Operator),
    /// No token: a `!` that begins no `!=`, or a text that is spelled wrongly.
    Stray,
}

impl<'a> Token<'a> {
    /// The word that the token is.
    pub fn word(self) -> Option<&'a [u8]>
        ensures { option_copied result ≡ word_of (lexeme_of self.entry) }
    {
        match self {
            Token::Word(word) => Some(word),
            _ => None,
        }
    }
}

/// Returns the tokens of a line, one by one. Contracts see the list of the tokens that are left.
#[derive(Debug, Drop)]
pub struct Lexer<'a> {
    rest: &'a [u8],
}

impl<'a> Model for Lexer<'a> {
    ghost use Rattle.std.specs.Prelude.{List};
    ghost use Rattle.djq_value.specs.Token.{Token as Lexeme, tokens};

    ghost Value = { List Lexeme };

    ghost view = { λ l. tokens l.rest.now };
}

impl<'a> Lexer<'a> {
    /// A lexer at the front of a line.
    pub fn new(line: &'a [u8]) -> Self
        ensures { result ≡ tokens line.now }
    {
        Lexer { rest: line }
    }

    /// A second lexer at the same place.
    pub fn fork(&self) -> Self
        ensures { result ≡ self.now }
    {
        Lexer { rest: self.rest }
    }

    /// Whether no token is left.
    pub fn is_done(&self) -> bool
        ensures { IsTrue result ↔ (self.now ≡ []) }
    {
        space_count(self.rest) == self.rest.len()
    }

    /// The next token; none if and only if only spaces are left.
    pub fn next(&mut self) -> Option<Token<'a>>
        ensures { TakesToken self.old result self.new }
    {
        let bytes = &self.rest[space_count(self.rest)..];
        if bytes.is_empty() {
            self.rest = bytes;
            None
        } else {
            let (token, rest) = front_token(bytes);
            self.rest = rest;
            Some(token)
        }
    }

    /// The next word, without its token. If none is returned, the lexer doesn't move.
    #[inline]
    pub(crate) fn plain_word(&mut self) -> Option<&'a [u8]>
        ensures { TakesPlainWord self.old result self.new }
    {
        let bytes = &self.rest[space_count(self.rest)..];
        let len = word_len(bytes);
        if len == 0 || bytes[0] == b'"' {
            return None;
        }
        self.rest = &bytes[len..];
        Some(&bytes[..len])
    }

    /// The next integer, if it has at most 18 digits, without its token. If none is returned, the
    /// lexer doesn't move.
    #[inline(always)]
    pub fn next_small(&mut self) -> Option<i64>
        ensures { TakesSmall self.old result self.new }
    {
        let bytes = self.rest;
        match small_front(bytes) {
            Some((value, len)) => {
                self.rest = &bytes[len..];
                Some(value)
            }
            None => None,
        }
    }

    /// The next name, if no space is before it and one is after it, without its token. If none is
    /// returned, the lexer doesn't move, and there may still be a name in another form.
    #[inline]
    pub fn next_close_name(&mut self) -> Option<&'a [u8]>
        ensures { TakesCloseName self.old result self.new }
    {
        let bytes = self.rest;
        match spaced_name_len(bytes) {
            Some(len) => {
                self.rest = &bytes[len..];
                Some(&bytes[..len])
            }
            None => None,
        }
    }
}

/// The token that begins with the first byte, and the bytes after it.
pub(crate) fn front_token(bytes: &[u8]) -> (Token<'_>, &[u8])
    requires { 0 < length bytes.now }
    ensures { token_front bytes.now ≡ Some (lexeme_of result.0, result.1.now) }
{
    let behind = &bytes[1..];
    match bytes[0] {
        b'(' => (Token::Open, behind),
        b')' => (Token::Close, behind),
        b',' => (Token::Comma, behind),
        b'<' => arrow_or_less(behind),
        b'=' => (Token::Operator(Operator::Equal), behind),
        b'>' => greater(behind),
        b'!' => not_equal_or_stray(behind),
        b'"' => text_or_stray(behind),
        _ => {
            let len = word_len(behind);
            (Token::Word(&bytes[..len + 1]), &behind[len..])
        }
    }
}

/// The token that a `<` begins, given the bytes after it.
fn arrow_or_less(behind: &[u8]) -> (Token<'_>, &[u8])
    ensures { less_front behind.now ≡ (lexeme_of result.0, result.1.now) }
{
    match behind.first() {
        Some(b'-') => (Token::Arrow, &behind[1..]),
        Some(b'=') => (Token::Operator(Operator::LessOrEqual), &behind[1..]),
        _ => (Token::Operator(Operator::Less), behind),
    }
}

/// The token that a `>` begins, given the bytes after it.
fn greater(behind: &[u8]) -> (Token<'_>, &[u8])
    ensures { greater_front behind.now ≡ (lexeme_of result.0, result.1.now) }
{
    match behind.first() {
        Some(b'=') => (Token::Operator(Operator::GreaterOrEqual), &behind[1..]),
        _ => (Token::Operator(Operator::Greater), behind),
    }
}

/// The token that a `!` begins, given the bytes after it.
fn not_equal_or_stray(behind: &[u8]) -> (Token<'_>, &[u8])
    ensures { not_front behind.now ≡ (lexeme_of result.0, result.1.now) }
{
    match behind.first() {
        Some(b'=') => (Token::Operator(Operator::NotEqual), &behind[1..]),
        _ => (Token::Stray, behind),
    }
}

/// The token that an opening quote begins, given the bytes after it.
fn text_or_stray(behind: &[u8]) -> (Token<'_>, &[u8])
    ensures { text_front (text_in false behind.now) ≡ (lexeme_of result.0, result.1.now) }
{
    let Some((end, len)) = text_end(behind) else {
        return (Token::Stray, &[]);
    };
    let rest = &behind[end..];
    if may_end(rest) {
        (Token::Text(Quoted::new(behind, end, len)), rest)
    } else {
        (Token::Stray, rest)
    }
}

/// Whether a word or a text may end before these bytes.
pub(crate) fn may_end(behind: &[u8]) -> bool
    ensures { result ≡ may_end_of behind.now }
{
    match behind.first() {
        Some(byte) => *byte == b' ' || ends_word(*byte),
        None => true,
    }
}

/// The number of spaces at the front.
pub(crate) fn space_count(bytes: &[u8]) -> usize
    ensures within { result ≤ length bytes.now }
    ensures behind { drop result bytes.now ≡ behind_spaces bytes.now }
{
    let mut count = 0;
    while count < bytes.len() && bytes[count] == b' ' {
        count += 1;
    }
    count
}

/// The number of bytes at the front that belong to a word.
fn word_len(bytes: &[u8]) -> usize
    ensures within { result ≤ length bytes.now }
    ensures word { take result bytes.now ≡ word_front bytes.now }
    ensures behind { drop result bytes.now ≡ behind_word bytes.now }
{
    let mut len = 0;
    while len < bytes.len() && !ends_word(bytes[len]) {
        len += 1;
    }
    len
}

/// Whether a byte ends a word: spaces and signs do. Letters are above all that do.
#[tactic(auto, using(crate::proofs::Literals::inner_above))]
fn ends_word(byte: u8) -> bool
    ensures { result ≡ ends_word_of byte }
{
    byte <= b'>' && matches!(byte, b' ' | b'!' | b'(' | b')' | b',' | b'<' | b'=' | b'>')
}
